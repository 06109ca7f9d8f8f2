// The calls of a store: start and value as the interface of a solver has them, its leading variables, its clauses, and the reading that a search leaves.
ghost use Rattle.std.specs.Prelude.{◌≡◌, length, is_ok, IfOk, if◌then◌else◌, Some, None};
ghost use Rattle.solving.specs.Settings.{reading_of};
ghost use Rattle.solving.specs.Models.{fresh, begun, reads, startable};
ghost use Rattle.solving.specs.Refusals.{started, valued};
ghost use Rattle.propagation.specs.Clauses.{clauses_in};
ghost use Rattle.solvers.specs.Stores.{model_of};

use crate::leading::Leading;
use crate::store::Store;
use propagation::Row;
use propagation::literal::bit_of;
use solving::{StartFault, ValueFault};
use std::alloc::{AllocError, Global};

impl Store {
    pub fn new(heap: Global) -> Result<Store, AllocError>
        ensures begins_fresh { IfOk result (λ s. model_of s ≡ fresh) }
    {
        let literals = Vec::with_capacity(heap, 9216)?;
        let ends = Vec::with_capacity(heap, 9216)?;
        let values = Vec::with_capacity(heap, 560)?;
        Ok(Store {
            variables: 1,
            leading: 1,
            literals,
            ends,
            values,
            read: false,
        })
    }

    pub fn start(&mut self, variables: u16, leading: u16) -> Result<(), StartFault>
        ensures answer { result ≡ started variables leading }
        ensures granted { is_ok result ≡ startable variables leading }
        ensures state { model_of self.new ≡ (if startable variables leading then begun variables leading else model_of self.old) }
    {
        if leading < 1 || leading > 32 || variables < leading || variables > 560 {
            return Err(StartFault::Size);
        }
        self.variables = variables as usize;
        self.leading = leading as usize;
        self.literals.clear();
        self.ends.clear();
        self.read = false;
        Ok(())
    }

    pub fn value(&self, variable: u16) -> Result<bool, ValueFault>
        ensures answer { result ≡ valued (model_of self.now) variable }
    {
        let j = variable as usize;
        if j < 1 || j > self.variables {
            return Err(ValueFault::Variable);
        }
        if !self.read {
            return Err(ValueFault::Reading);
        }
        Ok(bit_of(self.values[j - 1]))
    }

    // How many of its variables lead.
    pub fn leading(&self) -> Leading
        ensures has_the_number { result.count ≡ self.now.leading }
    {
        Leading {
            count: self.leading,
        }
    }

    // Its clauses, for closure.
    pub fn row(&self) -> Row<'_>
        ensures has_the_clauses { clauses_in result ≡ (model_of self.now).clauses }
    {
        Row {
            literals: &self.literals,
            ends: &self.ends,
        }
    }

    // Drops the reading.
    pub fn forget(&mut self)
        ensures state { model_of self.new ≡ reads (model_of self.old) None }
    {
        self.read = false;
    }

    // Keeps a setting of every variable as the reading.
    pub fn keep(&mut self, setting: &[Option<bool>])
        requires whole { length setting.now ≡ self.old.variables }
        ensures state { model_of self.new ≡ reads (model_of self.old) (Some (reading_of setting.now)) }
    {
        self.values.clear();
        let _ = self.values.extend_from_slice(setting);
        self.read = true;
    }
}
