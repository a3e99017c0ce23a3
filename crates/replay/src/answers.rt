// Making a call again and comparing what it gives with the fields that the line has left.
use crate::fault::Fault;
use crate::fields::Fields;

// The room for a slice of the record: four pages of a store. record.rs keeps to it. A room is an array, of which the part that was filled is
// lent back: a `Vec` could fail in the middle of a line, and would rest the verdict on more statements about the C library.
pub const ROOM: usize = 0x4000;

// Stands in an answer array before a call, and after one that is refused.
const UNTOUCHED: u64 = 0xA5A5_5A5A_C3C3_3C3C;

// An answer array. The check has no proof where the bound of a closure names a length, as `[u64; N]`, so it names this.
pub trait Answer: Drop {
    fn untouched() -> Self;

    fn words(&self) -> &[u64];
}

impl<const N: usize> Answer for [u64; N] {
    fn untouched() -> Self {
        [UNTOUCHED; N]
    }

    fn words(&self) -> &[u64] {
        self
    }
}

impl Fields<'_> {
    // refusal, values: goes on to the field behind them.
    fn agree(&mut self, code: u32, answer: &[u64]) -> Result<(), Fault> {
        if self.number() != u64::from(code) {
            return Err(Fault::Refusal);
        }
        if code == 0 {
            for word in answer {
                if *word != self.number() {
                    return Err(Fault::Value);
                }
            }
        } else if answer.iter().any(|word| *word != UNTOUCHED) {
            return Err(Fault::Touched);
        }
        Ok(())
    }

    // refusal, values
    pub fn answered<A: Answer, F: FnOnce(&mut A) -> u32>(mut self, call: F) -> Result<(), Fault>
        requires { F.IsAlwaysCallable call }
    {
        let mut answer = A::untouched();
        let code = call(&mut answer);
        self.agree(code, answer.words())
    }

    // buf, pos, refusal, values
    pub fn read<A: Answer, F: FnOnce(&[u8], usize, &mut A) -> u32>(
        mut self,
        call: F,
    ) -> Result<(), Fault>
        requires { F.IsAlwaysCallable call }
    {
        let mut room = [0u8; ROOM];
        let buf = self.bytes(&mut room)?;
        let pos = self.number() as usize;
        self.answered(|answer| call(buf, pos, answer))
    }

    // out, refusal, bytes, out afterwards
    pub fn written<F: FnOnce(&mut [u8], &mut [u64; 1]) -> u32>(
        mut self,
        call: F,
    ) -> Result<(), Fault>
        requires { F.IsAlwaysCallable call }
    {
        let mut before = self;
        let mut room = [0u8; ROOM];
        let out = self.bytes(&mut room)?;
        let mut answer = [UNTOUCHED];
        let code = call(out, &mut answer);
        self.agree(code, &answer)?;
        let mut expected = [0u8; ROOM];
        before.bytes(&mut expected)?;
        if code == 0 {
            self.bytes(&mut expected)?;
        }
        if room != expected {
            return Err(Fault::Output);
        }
        Ok(())
    }

    // value, 0, the answer itself
    pub fn direct<F: FnOnce(u64) -> u64>(mut self, call: F) -> Result<(), Fault>
        requires { F.IsAlwaysCallable call }
    {
        let value = self.number();
        self.agree(0, &[call(value)])
    }
}
