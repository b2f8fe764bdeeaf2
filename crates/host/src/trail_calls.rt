//! The trail's calls of a host: the write, a step of the walk with its cursor in five lent numbers, and the whole walk.
ghost use Rattle.std.specs.Prelude.{◌≡◌};
ghost use Rattle.host.specs.TrailExports.{write_left, exported_write, step_left, exported_step, walk_left, exported_walk};

use trail::walk::{Cursor, Stepped};

/// Write: the number in use becomes what it is behind the frame.
// Kept: a number, since `host_c` exports this call to C with the same clauses.
pub fn trail_write(file: &mut [u8], used: &mut usize, frame: &[u8]) -> u8
    ensures { write_left result file.new used.new
        ≡ exported_write file.old used.old frame.now }
{
    match trail::write::write(file, *used, frame) {
        Ok(more) => {
            *used = more;
            0
        }
        Err(why) => why.number(),
    }
}

/// A step: the cursor's numbers are end, w, kinds, extras and most; shown are start and length, both 0 where the walk has reached the file's start.
// Kept: a number, since `host_c` exports this call to C with the same clauses.
pub fn trail_step(file: &[u8], cursor: &mut [u64; 5], shown: &mut [u64; 2]) -> u8
    ensures { step_left result cursor.new shown.new
        ≡ exported_step file.now cursor.old shown.old }
{
    let c = Cursor {
        end: cursor[0] as usize,
        w: cursor[1] as usize,
        kinds: cursor[2],
        extras: cursor[3] as usize,
        most: cursor[4] as usize,
    };
    match trail::walk::step(file, c) {
        Ok(Stepped::End(_)) => {
            *shown = [0, 0];
            0
        }
        Ok(
            Stepped::Shown {
                start,
                length,
                next,
            },
        ) => {
            *cursor = [
                next.end as u64,
                next.w as u64,
                next.kinds,
                next.extras as u64,
                next.most as u64,
            ];
            *shown = [start as u64, length as u64];
            0
        }
        Err(why) => why.number(),
    }
}

/// The whole walk with a window of w frames: the largest count of extra frames in a window.
// Kept: a number, since `host_c` exports this call to C with the same clauses.
pub fn trail_walk(file: &[u8], w: usize, most: &mut usize) -> u8
    ensures { walk_left result most.new ≡ exported_walk file.now w most.old }
{
    match trail::walk::walk(file, w) {
        Ok(count) => {
            *most = count;
            0
        }
        Err(why) => why.number(),
    }
}
