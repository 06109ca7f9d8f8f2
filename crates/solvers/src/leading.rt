// The leading variables of a formula, and their settings by number.
// A setting is entered by its number, with every other variable open.
ghost use Rattle.std.specs.Prelude.{◌≡◌, ◌^◌, ◌≤◌, length};
ghost use Rattle.solving.specs.Leading.{leads};
ghost use Rattle.solvers.specs.Numbering.{bits_of, written};

use propagation::Assignment;

// How many variables lead: few enough that a machine word counts their settings.
#[derive(Clone, Copy)]
pub struct Leading {
    pub(super) count: usize,
    ghost few: { count ≤ 32 },
}

impl Leading {
    // How many settings the leading variables have.
    pub fn settings(self) -> u64
        ensures is_the_number_of_settings { result ≡ 2 ^ self.count }
    {
        1u64 << self.count
    }

    // The bits of a number, the first the highest. Each call on the way says that the variables stay as many: that relates before and
    // after, which no type can say. That those that lead are among them is a fact of both types together.
    fn write_bits(self, assignment: &mut Assignment, number: u64)
        requires inside { self.count ≤ length assignment.old.values.now }
        ensures are_written { assignment.new.values.now ≡ written assignment.old.values.now 0 (bits_of self.count number) }
        ensures leaves_the_trail { assignment.new.trail.len ≡ assignment.old.trail.len }
        ensures keeps_the_variables { length assignment.new.values.now ≡ length assignment.old.values.now }
    {
        let mut weight = self.settings();
        let mut rest = number;
        for variable in 0..self.count {
            weight /= 2;
            let bit = rest >= weight;
            if bit {
                rest -= weight;
            }
            assignment.assume(variable, bit);
        }
    }

    // The setting of this number, with nothing on the trail.
    pub fn enter(self, assignment: &mut Assignment, number: u64)
        requires inside { self.count ≤ length assignment.old.values.now }
        ensures is_entered { assignment.new.values.now ≡ leads (length assignment.old.values.now) (bits_of self.count number) }
        ensures empties_the_trail { assignment.new.trail.len ≡ 0 }
        ensures keeps_the_variables { length assignment.new.values.now ≡ length assignment.old.values.now }
    {
        assignment.clear();
        self.write_bits(assignment, number);
    }
}
