// What the types of an offer keep by themselves. These functions do nothing; they tell a prover so.
ghost use Rattle.host_types.specs.Ranges.{AskFits, IsKey, IsUnsigned, IsWord, OfferFits, OpFits};
ghost use Rattle.std.specs.Prelude.{FitsSigned};
ghost use Rattle.std.specs.Int.{w64};

use crate::entry::{Ask, Offer, Op};
use crate::text::{Key, Word};

fn number(n: u64)
    ensures { IsUnsigned n }
{}

fn signed(n: i64)
    ensures { FitsSigned w64 n }
{}

fn key(key: &Key)
    ensures { IsKey key.now }
{
    let _ = key.bytes();
}

fn word(word: &Word)
    ensures { IsWord word.now }
{
    let _ = word.bytes();
}

fn pair(first: &Key, second: &Word)
    ensures first { IsKey first.now }
    ensures second { IsWord second.now }
{
    key(first);
    word(second);
}

impl Op {
    /// Its numbers are of 64 bits, its keys and words are texts.
    pub fn fits(&self)
        ensures { OpFits self.now }
    {
        match self {
            Op::Set { word: one }
            | Op::GetSet { word: one }
            | Op::Insert { word: one }
            | Op::Discard { word: one }
            | Op::Has { word: one }
            | Op::Enqueue { word: one }
            | Op::RemoveWord { word: one }
            | Op::Join { word: one }
            | Op::Publish { word: one } => word(one),
            Op::Cas { old, new } => {
                word(old);
                word(new);
            }
            Op::Reset { number } | Op::Add { number } => signed(*number),
            Op::Put { key, word }
            | Op::PutIf { key, word }
            | Op::Replace { key, word }
            | Op::RemoveOne { key, word } => pair(key, word),
            Op::Remove { key: one } | Op::GetOf { key: one } | Op::Count { key: one } => key(one),
            Op::Lock { id } | Op::Try { id } | Op::Unlock { id } => number(*id),
            Op::Leave { member } => number(*member),
            _ => {}
        }
    }
}

impl Ask {
    /// Its numbers are of 64 bits, its keys and words are texts.
    pub fn fits(&self)
        ensures { AskFits self.now }
    {
        match self {
            Ask::Register { timeout } => number(*timeout),
            Ask::Alive {
                session,
                seq,
                event,
            } => {
                number(*session);
                number(*seq);
                number(*event);
            }
            Ask::Unregister { session } => number(*session),
            Ask::Tick => {}
            Ask::Command {
                session,
                seq,
                name,
                op,
            } => {
                number(*session);
                number(*seq);
                key(name);
                op.fits();
            }
        }
    }
}

impl Offer {
    /// Its numbers are of 64 bits, its keys and words are texts.
    pub fn fits(&self)
        ensures { OfferFits self.now }
    {
        number(self.time);
        self.ask.fits();
    }
}
