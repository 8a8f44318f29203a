// The unit's life: each call takes the unit and hands the unit back.
#![tactic(auto)]

ghost use Rattle.std.specs.Prelude.{◌≡◌, length};
ghost use Rattle.planner.specs.Lists.{Asks};
ghost use Rattle.unit.specs.Life.{rent, set, give_back};
ghost use Rattle.unit.specs.Request.{asked_of, Replied};
ghost use Rattle.unit.specs.Sound.{Sound};
ghost use Rattle.unit.specs.Told.{told};
ghost use Rattle.unit.specs.Unit.{new_unit, tenancy_of};

use field::{Fault, Refusal};
use planner::Spelling;
use settings::Table;

// A unit's number, the last tenancy accepted, whether it is rented, and its table of disks. `rented` stands beside `last`: after a return
// the last tenancy remains (`returned_bare`). That a unit is sound is a premise (`Sound`): theorems equate units (`rent_same`, `rent_new`),
// and a ghost fact in the struct would be equated with them.
#[derive(Clone, Copy)]
pub struct Unit {
    number: u32,
    last: u32,
    rented: bool,
    table: Table,
}

// What a call answers, with the unit afterwards.
#[derive(Clone, Copy)]
pub struct Done {
    pub answer: Result<(), Fault>,
    pub unit: Unit,
}

// What a read request answers, the length of the plan sheet written or the refusal, with the unit afterwards.
#[derive(Clone, Copy)]
pub struct Requested {
    pub answer: Result<usize, Fault>,
    pub unit: Unit,
}

impl Unit {
    // Last tenancy 0, not rented, N = 0, all rows 0.
    pub fn new(number: u32) -> Unit
        ensures { result ≡ new_unit number }
    {
        Unit {
            number,
            last: 0,
            rented: false,
            table: settings::empty(),
        }
    }

    pub fn number(self) -> u32
        ensures { result ≡ self.number }
    {
        self.number
    }

    // The tenancy that a sheet must name; 0 stands for not rented. 0 is document 01's own: no tenancy is 0 (`tenancy` of field).
    pub fn tenancy(self) -> u32
        ensures { result ≡ tenancy_of self }
    {
        if self.rented { self.last } else { 0 }
    }

    // Rents the unit. The table is cleared here too, though a returned unit has none.
    pub fn rent(mut self, tenancy: u32) -> Done
        ensures { told result ≡ rent self tenancy }
    {
        if self.rented {
            return Done {
                answer: Err(Refusal::Rented.at(0)),
                unit: self,
            };
        }
        if tenancy <= self.last {
            return Done {
                answer: Err(Refusal::NotAbove.at(0)),
                unit: self,
            };
        }
        self.last = tenancy;
        self.rented = true;
        self.table = settings::empty();
        Done {
            answer: Ok(()),
            unit: self,
        }
    }

    // Takes a settings sheet: the whole table is replaced.
    pub fn settings(mut self, sheet: &[u8]) -> Done
        ensures { told result ≡ set self sheet.now }
    {
        match settings::read(sheet, self.number, self.tenancy()) {
            Ok(table) => {
                self.table = table;
                Done {
                    answer: Ok(()),
                    unit: self,
                }
            }
            Err(e) => Done {
                answer: Err(e),
                unit: self,
            },
        }
    }

    // Takes the unit back: `return` is a word of the language.
    pub fn give_back(mut self, tenancy: u32) -> Done
        ensures { told result ≡ give_back self tenancy }
    {
        if !self.rented || tenancy != self.last {
            return Done {
                answer: Err(Refusal::NotTheTenant.at(0)),
                unit: self,
            };
        }
        self.rented = false;
        self.table = settings::empty();
        Done {
            answer: Ok(()),
            unit: self,
        }
    }

    // The case that the unit and a request sheet spell, as lists.
    pub fn ask(self, sheet: &[u8]) -> Result<Spelling, Fault>
        requires { Sound self }
        ensures { Asks (asked_of self sheet.now) (length sheet.now) result }
    {
        planner::ask(self.number, self.tenancy(), self.table, sheet)
    }

    // Answers a read request with the sheet of its plan, at the start of a lent buffer.
    pub fn request(self, sheet: &[u8], out: &mut [u8]) -> Requested
        requires { Sound self }
        ensures { Replied self sheet.now out.old result out.new }
    {
        Requested {
            answer: planner::plan_into(self.number, self.tenancy(), self.table, sheet, out),
            unit: self,
        }
    }
}
