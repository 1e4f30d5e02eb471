// How a thread waits at its end of a ring.
use std::hint;

/// The processor pauses (spin-loop hints) between two loads: 5 to 50 nanoseconds each.
const PAUSES: u32 = 4;

/// The steps after each pause. Each step depends on the one before; a step takes about 2 nanoseconds on any
/// processor, so that the steps make up most of the time.
const STEPS: u32 = 32;

/// Pauses about 200 nanoseconds between two loads of a ring's words, far less time than a row takes. A turn
/// whose loads find nothing until its patience is spent ends soon, and the join after it blocks: that is how
/// a run waits. The pause does not yield to the scheduler, since each yield would give a whole time slice to
/// other threads. `look` is any number not known at compile time.
pub fn pause(look: u32) {
    let mut number = u64::from(look);
    for _ in 0..PAUSES {
        hint::spin_loop();
        for _ in 0..STEPS {
            number = number.wrapping_mul(0x9E37_79B9_7F4A_7C15) ^ 0x5555_5555;
        }
        // Never true in practice; the compiler cannot know that, so it keeps the loop.
        if number == 0x5555_5555 {
            return;
        }
    }
}
