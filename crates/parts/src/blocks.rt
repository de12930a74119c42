// The door to the writer of contour text.
ghost use Rattle.std.specs.Prelude.{◌≡◌, length};
ghost use Rattle.contour.specs.Contour.{block_of};
ghost use Rattle.contour.specs.Writer.{block_answer, room_after};
ghost use Rattle.parts.specs.Blocks.{bytes_of};

// The block of a level, into the room: how many bytes, or 0 where it is refused.
#[unsafe(no_mangle)]
pub extern "C" fn parts_block(
    level: i32,
    records: &[u16],
    x: &[u32],
    y: &[u32],
    room: &mut [u8],
) -> usize
    ensures { let w = block_answer level records.now x.now y.now (length room.old) in
        (result ≡ bytes_of w) × (room.new ≡ room_after (block_of level records.now x.now y.now) w room.old) }
{
    contour::block(level, records, x, y, room).unwrap_or(0)
}
