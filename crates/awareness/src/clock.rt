// Clocks: what tells the time of a change, in milliseconds.
ghost use Rattle.std.specs.Prelude.{◌≡◌, ℕ, ◌+◌, ◌-◌, ◌^◌, min};

// Is read; what a reading leads to is its own matter.
pub trait Clock {
    // its next reading
    ghost next: { Self → ℕ };

    // what one reading leads to
    ghost leads: { Self → Self → Type 0 };

    // The next reading.
    fn now(&mut self) -> u64
        ensures reading { result ≡ next self.old }
        ensures once { leads self.old self.new };
}

// Repeats the reading that was put in.
#[derive(Clone, Copy, Debug, PartialEq, Eq)]
pub struct SetClock {
    pub reading: u64,
}

impl Clock for SetClock {
    ghost next = { λ c. c.reading };

    ghost leads = { λ c d. d.reading ≡ c.reading };

    fn now(&mut self) -> u64 {
        self.reading
    }
}

// Goes on by 1 at each reading, and stays at its end.
#[derive(Clone, Copy, Debug, PartialEq, Eq)]
pub struct StepClock {
    pub reading: u64,
}

impl Clock for StepClock {
    ghost next = { λ c. c.reading };

    ghost leads = { λ c d. d.reading ≡ min (c.reading + 1) (2 ^ 64 - 1) };

    fn now(&mut self) -> u64 {
        let reading = self.reading;
        self.reading = reading.saturating_add(1);
        reading
    }
}
