// What a search found is entered: a vector is put last and the fault is marked detected by it, or the fault is marked untestable.
ghost use Rattle.std.specs.Prelude.{◌≡◌, ◌<◌, vec_len};
ghost use Rattle.asking.specs.Findings.{finding_of};
ghost use Rattle.history.specs.Changing.{entering};
ghost use Rattle.job.specs.Tables.{card_of, view_of};

use crate::table::Table;
use asking::outcome::Outcome;
use history::mark::Mark;

impl Table {
    #[tactic(auto, using(crate::proofs::Tabled::entered_shown, crate::proofs::Tabled::entered_untestable))]
    pub(crate) fn enter(&mut self, fault: usize, outcome: Outcome)
        requires a_fault { fault < vec_len self.old.states }
        requires room { vec_len self.old.vectors < 512 }
        ensures enters_what_was_found { view_of self.new ≡ entering (view_of self.old) fault (finding_of outcome) }
        ensures card_stays { card_of self.new ≡ card_of self.old }
    {
        match outcome {
            Outcome::Shown(vector) => {
                let number = self.vectors.len();
                self.vectors.push_reserved(vector);
                self.states[fault].mark = Mark::Detected(number);
            }
            Outcome::Untestable => self.states[fault].mark = Mark::Untestable,
            Outcome::Unknown => {}
        }
    }
}
