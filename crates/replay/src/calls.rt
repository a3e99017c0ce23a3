// Layers and their calls.
use crate::fault::Fault;
use crate::fields::{Fields, Lines};
use std::ops::AddAssign;
use std::{fmt, io};

// How many answers agree with the recorded ones, and how many differ.
#[derive(Clone, Copy, Debug, Default, PartialEq, Eq)]
pub struct Count {
    agree: u64,
    differ: u64,
}

impl Count {
    pub const ONE_DIFFERS: Count = Count {
        agree: 0,
        differ: 1,
    };
}

impl From<Result<(), Fault>> for Count {
    fn from(replayed: Result<(), Fault>) -> Count {
        match replayed {
            Ok(()) => Count {
                agree: 1,
                differ: 0,
            },
            Err(_) => Count::ONE_DIFFERS,
        }
    }
}

impl AddAssign for Count {
    fn add_assign(&mut self, other: Count) {
        self.agree = self.agree.wrapping_add(other.agree);
        self.differ = self.differ.wrapping_add(other.differ);
    }
}

impl fmt::Display for Count {
    fn fmt<W: fmt::Write>(&self, f: &mut fmt::Formatter<W>) -> fmt::Result {
        let Count { agree, differ } = *self;
        write!(f, "{agree} agree, {differ} differ")
    }
}

// A layer: a file of data/ and the calls in it.
pub trait Layer {
    const FILE: &'static str;

    // Goes through the calls: each by its name and what replays it, in the order of their numbers.
    fn calls<C: Calls>(calls: &mut C) -> Result<(), C::Stop>;
}

// What is done with the calls of a layer, one after the other.
pub trait Calls {
    // Why it goes no further.
    type Stop: Drop;

    fn call<F: Fn(Fields<'_>) -> Result<(), Fault>>(
        &mut self,
        name: &str,
        replayed: F,
    ) -> Result<(), Self::Stop>
        requires { F.IsAlwaysCallable replayed };
}

// How many calls a layer can have.
const CALLS: usize = 64;

// Makes the call that a line names, and goes no further.
#[derive(Drop)]
struct Made<'a> {
    fields: Fields<'a>,
    call: u64,
    // The number of the call that was come to last. They are numbered from 1 on.
    last: u64,
}

impl Calls for Made<'_> {
    type Stop = Count;

    fn call<F: Fn(Fields<'_>) -> Result<(), Fault>>(
        &mut self,
        _name: &str,
        replayed: F,
    ) -> Result<(), Count>
        requires { F.IsAlwaysCallable replayed }
    {
        self.last = self.last.wrapping_add(1);
        if self.last == self.call {
            return Err(Count::from(replayed(self.fields)));
        }
        Ok(())
    }
}

// Prints for each call how often the answer is the recorded one.
#[derive(Drop)]
struct Printed<'a, R> {
    rt: &'a R,
    counts: &'a [Count],
}

impl<R: Print> Calls for Printed<'_, R> {
    type Stop = io::Error;

    fn call<F: Fn(Fields<'_>) -> Result<(), Fault>>(
        &mut self,
        name: &str,
        _replayed: F,
    ) -> io::Result<()>
        requires { F.IsAlwaysCallable _replayed }
    {
        let (count, rest) = match self.counts {
            [count, rest @ ..] => (*count, rest),
            [] => (Count::default(), self.counts),
        };
        self.counts = rest;
        println!(self.rt; "{name} {count}")
    }
}

// Replays each line of `text`, then prints the counts of the layer's calls. Answers the count of all lines, of which one that names no
// call of the layer differs.
pub fn replay_lines<L: Layer, R: Print>(rt: &R, text: &[u8]) -> io::Result<Count> {
    let mut total = Count::default();
    let mut counts = [Count::default(); CALLS];
    for fields in Lines(text) {
        let Some(call) = fields.call() else {
            continue;
        };
        let mut made = Made {
            fields,
            call,
            last: 0,
        };
        match L::calls(&mut made) {
            Ok(()) => total += Count::ONE_DIFFERS,
            Err(count) => {
                total += count;
                if let Some(of_call) = counts.get_mut((call as usize).wrapping_sub(1)) {
                    *of_call += count;
                }
            }
        }
    }
    L::calls(&mut Printed {
        rt,
        counts: &counts,
    })?;
    Ok(total)
}
