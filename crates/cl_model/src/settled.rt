use crate::class::Class;
use crate::verdict::Verdict;

/// What an entry of a class's constant pool is settled to, for good (JVMS SE 8, 5.4.3).
#[derive(Debug, PartialEq, Eq)]
pub struct Settled {
    pub class: Class,
    pub index: u16,
    pub verdict: Verdict,
}

impl Drop for Settled {
    fn drop(self) {
        let Settled {
            class: _,
            index: _,
            verdict: _,
        } = self;
    }
}
