// Each printed text once.
ghost use Rattle.script_text.specs.Printing.{HasRange};

use crate::checks::{key, same, word};
use host_types::{Event, Indexes, Kind, Refusal, Reply, Words};
use script_text::{Printed, print};
use std::alloc::Global;
use std::process::Abort;

fn prints(rt: &impl Abort, alloc: Global, answer: Printed, text: &[u8])
    requires { HasRange answer }
{
    let mut out = Vec::new(alloc);
    same(rt, print(&answer, &mut out), Ok(()));
    same(rt, out.as_slice(), text);
    drop(answer);
}

fn replies(rt: &impl Abort, alloc: Global, reply: Reply, text: &[u8]) {
    prints(rt, alloc, Printed::Answer { reply }, text);
}

#[test]
fn replies_are_printed(rt: HostRuntime) {
    let a = rt.alloc();
    replies(&rt, a, Reply::None, b"answer none\n");
    let text = word(&rt, a, b"a");
    replies(&rt, a, Reply::Text(text), b"answer text a\n");
    replies(
        &rt,
        a,
        Reply::Number(-9223372036854775808),
        b"answer number -9223372036854775808\n",
    );
    replies(&rt, a, Reply::Truth(true), b"answer true\n");
    replies(&rt, a, Reply::Truth(false), b"answer false\n");
    replies(&rt, a, Reply::Index(9), b"answer index 9\n");
    let holder = Reply::Holder { session: 2, id: 8 };
    replies(&rt, a, holder, b"answer holder 2 8\n");
    let reply = Reply::Number(1);
    prints(
        &rt,
        a,
        Printed::Replied { index: 6, reply },
        b"6 number 1\n",
    );
    let reply = Reply::Truth(true);
    prints(&rt, a, Printed::Repeat { reply }, b"repeat true\n");
}

fn fruits(rt: &impl Abort, alloc: Global) -> Words {
    let mut words = Words::new(alloc);
    words.push(word(rt, alloc, b"apple")).expect(rt, "memory");
    words.push(word(rt, alloc, b"cherry")).expect(rt, "memory");
    words
}

fn numbers(rt: &impl Abort, alloc: Global) -> Indexes {
    let mut indexes = Indexes::new(alloc);
    indexes.push(7).expect(rt, "memory");
    indexes.push(12).expect(rt, "memory");
    indexes
}

#[test]
fn lists_are_printed(rt: HostRuntime) {
    let a = rt.alloc();
    replies(&rt, a, Reply::Words(Words::new(a)), b"answer words\n");
    replies(
        &rt,
        a,
        Reply::Words(fruits(&rt, a)),
        b"answer words apple cherry\n",
    );
    replies(&rt, a, Reply::Indexes(Indexes::new(a)), b"answer indexes\n");
    replies(
        &rt,
        a,
        Reply::Indexes(numbers(&rt, a)),
        b"answer indexes 7 12\n",
    );
}

fn tells(rt: &impl Abort, alloc: Global, event: Event, text: &[u8]) {
    let answer = Printed::Event {
        session: 2,
        index: 5,
        previous: 3,
        event,
    };
    prints(rt, alloc, answer, text);
}

#[test]
fn events_are_printed(rt: HostRuntime) {
    let a = rt.alloc();
    let name = key(&rt, a, b"t");
    let word = word(&rt, a, b"hi");
    tells(
        &rt,
        a,
        Event::Message { name, word },
        b"event 2 at 5 after 3: message t hi\n",
    );
    let name = key(&rt, a, b"t");
    tells(
        &rt,
        a,
        Event::Granted { name, id: 8 },
        b"event 2 at 5 after 3: granted t 8\n",
    );
    let name = key(&rt, a, b"t");
    tells(
        &rt,
        a,
        Event::Joined { name, member: 9 },
        b"event 2 at 5 after 3: joined t 9\n",
    );
    let name = key(&rt, a, b"t");
    tells(
        &rt,
        a,
        Event::Left { name, member: 9 },
        b"event 2 at 5 after 3: left t 9\n",
    );
}

#[test]
fn answers_are_printed(rt: HostRuntime) {
    let a = rt.alloc();
    prints(&rt, a, Printed::Opened { last: 0 }, b"open 0\n");
    prints(
        &rt,
        a,
        Printed::Expired {
            index: 7,
            session: 1,
        },
        b"7 expired 1\n",
    );
    prints(&rt, a, Printed::Session { index: 2 }, b"2 session 2\n");
    prints(&rt, a, Printed::Done { index: 5 }, b"5 ok\n");
    prints(&rt, a, Printed::Nothing { session: 2 }, b"none 2\n");
    prints(
        &rt,
        a,
        Printed::Missed {
            session: 2,
            last: 3,
            after: 5,
        },
        b"missed 2 last 3 after 5\n",
    );
    prints(&rt, a, Printed::Global { index: 4 }, b"global 4\n");
    prints(&rt, a, Printed::Quiet { index: 10 }, b"quiet 10\n");
}

#[test]
fn ranges_and_sums_are_printed(rt: HostRuntime) {
    let a = rt.alloc();
    prints(
        &rt,
        a,
        Printed::Minor {
            base: 1,
            last: 4,
            kept: 3,
            cut: 5,
        },
        b"minor 1..4 kept 3 of 4 cut 5\n",
    );
    prints(
        &rt,
        a,
        Printed::Major {
            base: 1,
            last: 8,
            kept: 2,
            cut: 9,
            floor: 5,
        },
        b"major 1..8 kept 2 of 8 cut 9 floor 5\n",
    );
    prints(
        &rt,
        a,
        Printed::Part {
            base: 9,
            last: 8,
            kept: 0,
            cut: 0,
            floor: 0,
        },
        b"part 9..8 kept 0 of 0 cut 0 floor 0\n",
    );
    prints(
        &rt,
        a,
        Printed::Total { kept: 4, count: 5 },
        b"total kept 4 of 5\n",
    );
    prints(
        &rt,
        a,
        Printed::Made {
            lines: 9,
            stored: 7,
            refused: 0,
            kept: 6,
            count: 8,
        },
        b"made 9 lines, stored 7, refused 0, kept 6 of 8\n",
    );
    prints(
        &rt,
        a,
        Printed::Follow {
            from: 4,
            to: 5,
            sent: 1,
        },
        b"follow 4 to 5 sent 1\n",
    );
}

/// Why an offer isn't taken, and what is printed of that.
const REFUSALS: &[(Refusal, &[u8])] = &[
    (Refusal::Time { now: 4 }, b"refused time 4\n"),
    (Refusal::Due { session: 3 }, b"refused due 3\n"),
    (Refusal::NoSession { session: 2 }, b"refused no session 2\n"),
    (Refusal::Forgotten { acked: 3 }, b"refused forgotten 3\n"),
    (Refusal::Gap { next: 4 }, b"refused gap 4\n"),
    (Refusal::Ack { seq: 3, event: 1 }, b"refused ack 3 1\n"),
    (Refusal::NoName, b"refused no name\n"),
    (
        Refusal::Kind { is: Kind::Multimap },
        b"refused kind multimap\n",
    ),
    (Refusal::Sessions, b"refused sessions\n"),
    (Refusal::Names, b"refused names\n"),
    (
        Refusal::Range {
            value: 9223372036854775807,
        },
        b"refused range 9223372036854775807\n",
    ),
    (Refusal::LogEnd, b"refused log end\n"),
    (Refusal::GenEnd { generation: 6 }, b"refused gen end\n"),
];

fn refuses(rt: &impl Abort, alloc: Global, refusal: Refusal, text: &[u8]) {
    prints(rt, alloc, Printed::Refused(refusal), text);
}

#[test]
fn refusals_are_printed(rt: HostRuntime) {
    let a = rt.alloc();
    for (refusal, text) in REFUSALS {
        refuses(&rt, a, *refusal, text);
    }
    prints(&rt, a, Printed::Falls { now: 4 }, b"refused falls 4\n");
    prints(&rt, a, Printed::Past { last: 5 }, b"refused past 5\n");
    prints(&rt, a, Printed::Busy { generation: 3 }, b"refused busy 3\n");
    prints(
        &rt,
        a,
        Printed::NoSegment { base: 5 },
        b"refused no segment 5\n",
    );
    prints(&rt, a, Printed::Idle, b"refused idle\n");
}
