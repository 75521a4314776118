use crate::block::Block;
use crate::source::{Answer, Source};

// A source that is lent is a source.
impl<'a, S: Source> Source for &'a S {
    type Of = S::Of;

    ghost width = { λ s. S.Source.width s.now };

    ghost selection = { λ s. S.Source.selection s.now };

    ghost some = { λ s. S.Source.some s.now };

    ghost few = { λ s. S.Source.few s.now };

    fn pins(&self) -> u32 {
        (**self).pins()
    }

    fn ask(&self, block: Block) -> Answer<S::Of> {
        (**self).ask(block)
    }
}
