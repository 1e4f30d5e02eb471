// What takes turns, and the laws of turns.
ghost use Rattle.std.specs.Prelude.{◌<◌, Option};

/// An end of a ring that takes turns, each with a value of its own or alone.
///
/// Implementers define `may`, the condition of a turn, and `turned`, what it leaves. Both take `None` for a
/// turn that is taken alone.
pub trait TurnWith<Y> {
    ghost may: { Self → Option Y → Type 0 };

    ghost turned: { Self → Option Y → Self → Option Y → Type 0 };

    /// Takes a turn with a value, which ends when it looked in vain `patience` times.
    fn turn(&mut self, other: &mut Y, patience: u32)
        requires may { may self.old (Some other.old) }
        requires patience { 0 < patience }
        ensures { turned self.old (Some other.old) self.new (Some other.new) };

    /// Takes a turn alone, which ends in the same way.
    fn turn_alone(&mut self, patience: u32)
        requires may { may self.old None }
        requires patience { 0 < patience }
        ensures { turned self.old None self.new None };

    /// Returns how many rows it dealt with, or none if it has no row left to deal with. No clause mentions
    /// it: it only decides how a thread waits between turns, and when it takes no more.
    fn rows(&self) -> Option<u64>;

    /// After a turn another one may be taken.
    ghost may_again: { (x x' : Self) (y y' : Option Y) → may x y → turned x y x' y' → may x' y' };

    /// Two successive turns are one turn.
    ghost turned_again: { (x x' x'' : Self) (y y' y'' : Option Y) → turned x y x' y' → turned x' y' x'' y''
        → turned x y x'' y'' };
}
