// The result of all last replies of a drive.
ghost use Rattle.std.specs.Prelude.{◌≡◌, ◌&&◌, Bool, false, true};
ghost use Rattle.dali_report.specs.Outcomes.{outcome_by};

/// The result of the last replies of a drive.
#[derive(Clone, Copy, PartialEq, Eq)]
pub enum Outcome {
    /// No order had its last reply.
    Nothing,
    /// Each was `kept 0 Done`, of an order that this drive ended.
    DoneNow,
    /// Each was `kept 0 Done`.
    Done,
    /// One wasn't `kept 0 Done`.
    NotDone,
}

impl Outcome {
    /// With one more last reply: whether that is `kept 0 Done`, and whether this drive ended the order.
    pub(crate) fn with(self, done: bool, ended_now: bool) -> Outcome
        ensures { (had all_done all_now : Bool) → self ≡ outcome_by had all_done all_now
            → (had ≡ false → (all_done ≡ true) × (all_now ≡ true))
            → result ≡ outcome_by true (all_done && done) (all_now && ended_now) }
    {
        match (self, done, ended_now) {
            (Outcome::NotDone, _, _) | (_, false, _) => Outcome::NotDone,
            (Outcome::Done, true, _) | (_, true, false) => Outcome::Done,
            (Outcome::Nothing | Outcome::DoneNow, true, true) => Outcome::DoneNow,
        }
    }
}
