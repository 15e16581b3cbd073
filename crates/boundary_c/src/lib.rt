// The C functions of include/jhartupal.h: each calls the function of `boundary` of its name, and promises what that promises.
#![tactic(auto)]

ghost use Rattle.std.specs.Prelude.{◌≡◌, length};
ghost use Rattle.drive.specs.declared.Event.TheVariants.{LoopReset, TimeOver, PowerOn};
ghost use Rattle.drive.specs.Drive.{event_answer};
ghost use Rattle.drive.specs.Entry.{frame_in, frame_in_buffer, frame_in_window, next_frame, next_frame_buffer};
ghost use Rattle.boundary.specs.Boundary.{Tells, make_answer};

use drive::Drive;
use state::Setup;

// Makes a drive in the lent state, from a setup.
// kept: each of the six stands again in boundary, clauses and all, since the C interface needs the exported names, and a crate that C links is none that demands can stand on (docs/DECISIONS.md)
#[unsafe(no_mangle)]
pub extern "C" fn jhartupal_make(d: &mut Drive, setup: &Setup) -> u64
    ensures { Tells (make_answer d.old setup.now) result d.new }
{
    boundary::jhartupal_make(d, setup)
}

// A frame in, with a window for the data of a WRITE.
#[unsafe(no_mangle)]
pub extern "C" fn jhartupal_frame(
    d: &mut Drive,
    frame: &[u8],
    start: u64,
    window: &mut [u8],
    reply: &mut [u8],
) -> u64
    ensures { Tells (frame_in d.old frame.now start window.old (length reply.old)) result d.new
        × (reply.new ≡ frame_in_buffer d.old frame.now start window.old reply.old)
        × (window.new ≡ frame_in_window d.old frame.now start window.old (length reply.old)) }
{
    boundary::jhartupal_frame(d, frame, start, window, reply)
}

// The next frame out of an exchange, from a window.
#[unsafe(no_mangle)]
pub extern "C" fn jhartupal_next(
    d: &mut Drive,
    address: u32,
    ox_id: u16,
    start: u64,
    window: &[u8],
    reply: &mut [u8],
) -> u64
    ensures { Tells (next_frame d.old address ox_id start window.now (length reply.old)) result d.new
        × (reply.new ≡ next_frame_buffer d.old address ox_id start window.now reply.old) }
{
    boundary::jhartupal_next(d, address, ox_id, start, window, reply)
}

// The loop was reset.
#[unsafe(no_mangle)]
pub extern "C" fn jhartupal_loop_reset(d: &mut Drive) -> u64
    ensures { Tells (event_answer d.old LoopReset) result d.new }
{
    boundary::jhartupal_loop_reset(d)
}

// The verification time is over.
#[unsafe(no_mangle)]
pub extern "C" fn jhartupal_time_over(d: &mut Drive) -> u64
    ensures { Tells (event_answer d.old TimeOver) result d.new }
{
    boundary::jhartupal_time_over(d)
}

// The drive powers on.
#[unsafe(no_mangle)]
pub extern "C" fn jhartupal_power_on(d: &mut Drive) -> u64
    ensures { Tells (event_answer d.old PowerOn) result d.new }
{
    boundary::jhartupal_power_on(d)
}
