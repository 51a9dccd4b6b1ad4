ghost use Rattle.std.specs.Prelude.{◌<◌, length};

use logic_term::Label;
use mir_ir::{Block, Body, Terminator, TerminatorKind};
use std::alloc::Global;
use std::test::Fail;
use text_core::{Items, NoMemory, Span, Text};

fn returning(alloc: Global, at: u32) -> Block
    requires { at < 100 }
{
    Block {
        head: None,
        nest: Items::new(alloc),
        statements: Items::new(alloc),
        end: Terminator {
            span: Span {
                start: at,
                end: at + 1,
            },
            kind: TerminatorKind::Return,
        },
    }
}

/// A body of blocks that only return, with these labels; a block's number is where its end's span begins.
fn body_of(alloc: Global, labels: &[u32]) -> Result<Body, NoMemory>
    requires { length labels.now < 100 }
{
    let mut blocks = Items::new(alloc);
    for (i, label) in labels.iter().enumerate() {
        blocks.push((Label(*label), returning(alloc, i as u32)))?;
    }
    Ok(Body {
        id: 0,
        owner: Text::from_bytes(alloc, b"f")?,
        types: Items::new(alloc),
        params: 0,
        locals: Items::new(alloc),
        names: Items::new(alloc),
        outlives: Items::new(alloc),
        calls: Items::new(alloc),
        entry: Label(0),
        blocks,
        span: Span { start: 0, end: 9 },
        types_at: Items::new(alloc),
    })
}

#[test]
fn the_first_block_of_a_label(rt: HostRuntime) -> Result<(), Fail> {
    let body = body_of(rt.alloc(), &[4, 7, 7])?;
    let found = body.block(Label(7)).ok_or("no block 7")?;
    assert!(rt; found.end.span.start == 1);
    assert!(rt; body.block(Label(3)).is_none());
    Ok(())
}
