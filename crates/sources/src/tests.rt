ghost use Rattle.std.specs.Prelude.{◌≤◌};
ghost use Rattle.std.proofs.Common.{lit≤};
ghost use Rattle.sources.specs.Examples.{switch_at_1};

use crate::block::Block;
use crate::flipped::Flipped;
use crate::inverted::Inverted;
use crate::laws::mount_of_one_pin;
use crate::mounted::Mounted;
use crate::source::{Answer, Source};
use faults::fault::Ground;
use std::test::Fail;

// One pin with a switch at 1: the ends 0 1.
#[derive(Clone, Copy)]
struct One;

impl Source for One {
    type Of = bool;

    ghost width = { λ _. 1 };

    ghost selection = { λ _. switch_at_1 };

    ghost some = { λ _. lit≤ tt };

    ghost few = { λ _. lit≤ tt };

    fn pins(&self) -> u32 {
        1
    }

    fn ask(&self, block: Block) -> Answer<bool> {
        match (block.level, block.number) {
            (0, 0) => Answer::Mixed,
            (1, 0) => Answer::All(false),
            (1, 1) => Answer::All(true),
            _ => Answer::Outside,
        }
    }
}

#[test]
fn mounts_one_pin(rt: HostRuntime) -> Result<(), Fail> {
    let [a, b, c, d] = mount_of_one_pin(One)?;
    assert_eq!(rt; a, Answer::All(false));
    assert_eq!(rt; b, Answer::All(false));
    assert_eq!(rt; c, Answer::All(false));
    assert_eq!(rt; d, Answer::All(true));
    Ok(())
}

#[test]
fn stacks_layers(rt: HostRuntime) -> Result<(), Fail> {
    let mounted = Mounted::new(&One, 3, 2, true)?;
    let flipped = Flipped::new(&mounted, 5)?;
    let inverted = Inverted::new(flipped);
    let ask = |level, number| inverted.ask(Block { level, number });
    assert_eq!(rt; inverted.pins(), 3);
    assert_eq!(rt; ask(0, 0), Answer::Mixed);
    assert_eq!(rt; ask(2, 0), Answer::Mixed);
    assert_eq!(rt; ask(3, 0), Answer::All(false));
    assert_eq!(rt; ask(3, 1), Answer::All(true));
    assert_eq!(rt; ask(1, 1), Answer::All(false));
    assert_eq!(rt; ask(3, 8), Answer::Outside);
    Ok(())
}

#[test]
fn refuses_layers(rt: HostRuntime) {
    assert_eq!(rt; Flipped::new(One, 2).err(), Some(Ground::SourceLayer.at(2)));
    assert_eq!(rt;
        Mounted::new(One, 0, 0, false).err(),
        Some(Ground::SourceLayer.at(0))
    );
    assert_eq!(rt;
        Mounted::new(One, 21, 9, false).err(),
        Some(Ground::SourceLayer.at(21))
    );
    assert_eq!(rt;
        Mounted::new(One, 3, 4, false).err(),
        Some(Ground::SourceLayer.at(4))
    );
}
