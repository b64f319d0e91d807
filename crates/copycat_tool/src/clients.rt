// The clients of a run, one for each session.
ghost use Rattle.std.specs.Prelude.{◌≡◌, ℕ, IfOk, OnOk, OnErr};
ghost use Rattle.log_model.specs.serving.Positions.{acked_positions, event_at};
ghost use Rattle.copycat_tool.specs.ClientTakes.{Keeps, client_of};

use disk_model::Disk;
use event_batches::Client;
use host_recovery::Host;
use host_types::{Index, NoMemory};
use resource_catalog::Catalog;
use std::alloc::Global;
use std::collections::BTreeMap;

/// The clients of the sessions. That of a session which isn't known yet took nothing: it begins at the session's id.
#[derive(Drop)]
pub struct Clients {
    known: BTreeMap<Index, Client>,
}

impl Clients {
    /// The clients for a log that was opened: each has the events that its session acknowledged.
    pub fn of_opened<D: Disk>(alloc: Global, host: &Host<D, Catalog>) -> Result<Clients, NoMemory>
        ensures { IfOk result (λ clients. (id : ℕ) → client_of clients id ≡ event_at id id (acked_positions host.now.core.sessions.sessions)) }
    {
        let ids = host.sessions()?;
        let mut clients = Clients {
            known: BTreeMap::new(alloc),
        };
        for id in ids {
            let last = match host.session(id) {
                Some(session) => session.acked_event,
                None => id,
            };
            clients.keep(id, Client::new(last))?;
        }
        Ok(clients)
    }

    /// The client of a session.
    pub fn of(&self, session: Index) -> Client
        ensures { result.last ≡ client_of self.now session }
    {
        match self.known.get(&session) {
            Some(client) => *client,
            None => Client::new(session),
        }
    }

    /// Keeps what the client of a session took.
    pub fn keep(&mut self, session: Index, client: Client) -> Result<(), NoMemory>
        ensures ok { OnOk result (Keeps session client.last self.old self.new) }
        ensures err { OnErr result ((id : ℕ) → client_of self.new id ≡ client_of self.old id) }
    {
        match self.known.insert(session, client) {
            Ok(_) => Ok(()),
            Err(_) => Err(NoMemory),
        }
    }
}
