ghost use Rattle.std.specs.Prelude.{◌≤◌};
ghost use Rattle.block_file.specs.Layout.{blocks_of};
ghost use Rattle.block_file.specs.Opened.{HeadIs};

use crate::shape::Shape;
use crate::tables::put_part;
use disk_model::Block;

/// Block 0 of a volume.
pub fn head_block(shape: Shape, tag: u64, size: u64) -> Block
    requires { blocks_of shape.files shape.blocks ≤ size }
    ensures { HeadIs size shape tag result }
{
    let mut head = [0; 4096];
    put_part(&mut head, 0, b"NFSCPYV1");
    put_part(&mut head, 8, &shape.files.to_be_bytes());
    put_part(&mut head, 12, &shape.blocks.to_be_bytes());
    put_part(&mut head, 16, &tag.to_be_bytes());
    head
}
