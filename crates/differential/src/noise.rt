// What may stand in tables before a call.
use crate::chance::Chance;
use model::{Branch, Node};
use sources::block::Block;
use std::alloc::{AllocError, Global};
use trees::tree::{Half, Record};

// Nodes that no plan has made, some of them in circles.
pub fn noise_nodes(heap: Global, chance: &mut Chance, len: usize) -> Result<Vec<Node>, AllocError> {
    let mut nodes = Vec::new(heap);
    // Counted: each turn draws by chance and may fail, and no index is used.
    for _ in 0..len {
        let next = u16::try_from(chance.place_below(len)).unwrap_or(u16::MAX);
        let code = u16::from(chance.byte_below(128));
        nodes.push(Node {
            place: chance.byte_below(12),
            low: Branch::Node(next),
            high: chance.pick(&[Branch::End(code), Branch::Node(code)], Branch::End(0)),
        })?;
    }
    Ok(nodes)
}

// A record that no build has written.
pub fn noise_record(chance: &mut Chance) -> Record {
    Record {
        block: Block {
            level: chance.below(5),
            number: chance.below(9),
        },
        low: Half::Split(chance.place_below(9)),
        high: Half::Code(u16::from(chance.byte_below(3))),
    }
}
