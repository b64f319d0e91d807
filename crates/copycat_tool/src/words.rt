// The words that the program is called with.
ghost use Rattle.std.specs.Prelude.{◌≡◌, map, IfSome};
ghost use Rattle.copycat_tool.specs.Words.{IsSize, IsTask, asked, asked_of, census_asked, run_of, size_of};
ghost use Rattle.host_types.specs.Name.{named};

use host_types::LogName;
use script_text::number_of;

/// The line that is printed where the words are no command.
pub const USAGE: &[u8] =
    b"usage: copycat run NAME [--segment N], census NAME, follow LEADER NAME, make NAME SEED COUNT\n";

/// After how many entries the next file is begun, where the words say nothing of it.
pub const USUAL_SIZE: u32 = 1024;

/// What is to be done with a log.
#[derive(Clone, Copy)]
pub enum Task {
    /// A script is run over it. Files that are made now are to have so many entries: 2 to 65,536.
    Run { size: u32 },
    /// It is shown how it lies in its files.
    Census,
}

/// What the words ask.
#[derive(Clone, Copy)]
pub struct Asked {
    pub name: LogName,
    pub task: Task,
}

/// The size that a word is.
fn size_in(word: &[u8]) -> Option<u32>
    ensures size { result ≡ size_of word.now }
    ensures within { IfSome result IsSize }
{
    let size = number_of(word)?;
    if !(2..=65536).contains(&size) {
        return None;
    }
    Some(size as u32)
}

/// What a name and a size ask, if they are ones.
fn asks(name: &[u8], size: Option<u32>) -> Option<Asked>
    requires { IfSome size IsSize }
    ensures asked { result ≡ asked (named name.now) size }
    ensures within { IfSome result (λ asked. IsTask asked.task) }
{
    Some(Asked {
        name: LogName::new(name).ok()?,
        task: Task::Run { size: size? },
    })
}

/// What stands behind the word `run`.
fn read_run(words: &[Vec<u8>]) -> Option<Asked>
    ensures asked { result ≡ run_of (map (λ w. w.items) words.now) }
    ensures within { IfSome result (λ asked. IsTask asked.task) }
{
    match words {
        [] => None,
        [name] => asks(name, Some(USUAL_SIZE)),
        [first, second] => {
            if let Some(size) = first.strip_prefix(b"--segment=") {
                asks(second, size_in(size))
            } else if let Some(size) = second.strip_prefix(b"--segment=") {
                asks(first, size_in(size))
            } else {
                None
            }
        }
        [first, second, third] => {
            if first.as_slice() == b"--segment".as_slice() {
                asks(third, size_in(second))
            } else if second.as_slice() == b"--segment".as_slice() {
                asks(first, size_in(third))
            } else {
                None
            }
        }
        _ => None,
    }
}

/// What stands behind the word `census`.
fn read_census(words: &[Vec<u8>]) -> Option<Asked>
    ensures asked { result ≡ census_asked (map (λ w. w.items) words.now) }
    ensures within { IfSome result (λ asked. IsTask asked.task) }
{
    match words {
        [name] => Some(Asked {
            name: LogName::new(name).ok()?,
            task: Task::Census,
        }),
        _ => None,
    }
}

/// What the words ask, if they are a command: `run NAME`, with `--segment N` or `--segment=N` before or behind the name, or
/// `census NAME`.
pub fn read_words(words: &[Vec<u8>]) -> Option<Asked>
    ensures asked { result ≡ asked_of (map (λ w. w.items) words.now) }
    ensures within { IfSome result (λ asked. IsTask asked.task) }
{
    match words {
        [word, words @ ..] if word.as_slice() == b"run".as_slice() => read_run(words),
        [word, words @ ..] if word.as_slice() == b"census".as_slice() => read_census(words),
        _ => None,
    }
}
