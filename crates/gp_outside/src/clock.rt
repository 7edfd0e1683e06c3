/// A clock. It can't fail, and promises nothing of the moments that it gives.
pub trait Clock: Drop {
    ghost use Rattle.gp_outside.specs.Clocks.{ClockTells, IsMoment};

    ghost tells: { Self → ClockTells };

    /// The moment, in seconds.
    fn now(&mut self) -> u64
        ensures { IsMoment (tells self.old) (tells self.new) result };
}
