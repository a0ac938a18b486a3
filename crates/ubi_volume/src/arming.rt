// What a volume in memory is armed with, and what has struck.

ghost use Rattle.std.specs.Prelude.{◌≡◌};
ghost use Rattle.ubi_volume.specs.Arming.{IsUnarmed, IsFate, nothing_armed, fate_of, after_call};

// Each of these calls is one step; a write has one for each unit, and a read none.
pub(crate) const CHANGE_STEPS: u64 = 1;

pub(crate) const UNMAP_STEPS: u64 = 1;

pub(crate) const MAP_STEPS: u64 = 1;

// A cut falls within step `cut_step`, counted from arming, and the call `fail` calls from now answers Failed; 0 is none of
// them. `steps` are those since a cut was armed.
#[derive(Clone, Copy)]
pub(crate) struct Arming {
    pub(crate) cut_step: u64,
    pub(crate) pattern: u64,
    pub(crate) is_cut: bool,
    pub(crate) fail: u64,
    pub(crate) steps: u64,
    pub(crate) faults: u64,
}

// What becomes of a call. `count` is the count of faults at its end.
#[derive(Clone, Copy)]
pub(crate) enum Fate {
    Runs,
    // It answers Failed and does nothing.
    Refused { count: u64 },
    // A cut falls into one of its steps, behind `done` of them, and `digit` says what it leaves of that one.
    Struck { done: u64, digit: u64, count: u64 },
}

impl Arming {
    // Nothing is armed, and nothing has struck.
    pub(crate) fn new() -> Arming
        ensures { result ≡ nothing_armed }
    {
        Arming {
            cut_step: 0,
            pattern: 0,
            is_cut: false,
            fail: 0,
            steps: 0,
            faults: 0,
        }
    }

    #[tactic(auto, unfolding(crate::specs::Arming::fate_of, crate::specs::Arming::after_call))]
    // What becomes of the call that begins, which has so many steps. It is counted.
    pub(crate) fn next(&mut self, steps: u64) -> Fate
        ensures fate { result ≡ fate_of self.old steps }
        ensures after { self.new ≡ after_call self.old steps }
        ensures told { IsFate self.old self.new steps result }
        ensures unarmed { IsUnarmed self.old → IsUnarmed self.new }
    {
        let first = self.steps;
        let falls = self.cut_step;
        let fail = self.fail;
        let count = self.faults.saturating_add(1);
        self.fail = fail.saturating_sub(1);
        if self.is_cut {
            self.faults = count;
            return Fate::Refused { count };
        }
        if fail == 1 {
            self.faults = count;
            return Fate::Refused { count };
        }
        if first < falls {
            if falls - first <= steps {
                self.faults = count;
                self.steps = falls;
                self.is_cut = true;
                return Fate::Struck {
                    done: falls - first - 1,
                    digit: self.pattern % 4,
                    count,
                };
            }
        }
        self.steps = first.saturating_add(steps);
        Fate::Runs
    }
}
