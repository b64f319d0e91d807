// A script that is as long as one may be, and one that is longer.
ghost use Rattle.std.specs.Prelude.{None};

use crate::same;
use copycat_tool::run;
use disk_memory::SureDisk;
use script_io::{Failed, MemorySink, Source};
use std::alloc::Global;
use std::process::Abort;

/// Two lines of a script. The first is taken, and the second is refused then.
const LINES: [u8; 52] = *b"tick 18446744073709551615\ntick 10000000000000000000\n";

/// A script of so many bytes: the first line, and then the second again and again.
#[derive(Drop)]
struct Lines {
    at: usize,
    end: usize,
}

impl Source for Lines {
    ghost left = { λ _. None };

    ghost faults = { λ _. 0 };

    fn read(&mut self, buffer: &mut [u8]) -> Result<usize, Failed> {
        let n = buffer.len().min(self.end.saturating_sub(self.at));
        for place in buffer[..n].iter_mut() {
            let at = if self.at < 26 {
                self.at
            } else {
                26 + self.at % 26
            };
            *place = LINES[at];
            self.at = self.at.saturating_add(1);
        }
        Ok(n)
    }
}

/// Asserts how a run over a script of so many bytes ends.
fn ends(rt: &impl Abort, alloc: Global, end: usize, last: &str, wanted: u8) {
    let mut words = Vec::new(alloc);
    for word in ["run", "db"] {
        let word = word.as_bytes().to_vec(alloc).expect(rt, "memory");
        words.push(word).expect(rt, "memory");
    }
    let mut script = Lines { at: 0, end };
    let mut out = MemorySink::new(alloc, Vec::new(alloc));
    let (status, disk) = run(alloc, &words, &mut script, SureDisk::new(alloc), &mut out);
    drop(disk);
    same(rt, status.0, wanted);
    assert!(rt; out.bytes().ends_with(last.as_bytes()));
}

#[test]
fn a_script_may_be_too_long(rt: HostRuntime) {
    let alloc = rt.alloc();
    let last = "refused time 18446744073709551615\n";
    ends(&rt, alloc, 16777216, last, 0);
    ends(&rt, alloc, 16777217, "script too long\n", 3);
}
