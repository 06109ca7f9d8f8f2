// A trial of one cell: the vector with that cell free, and what it was before.
// However the trial ends, the cell is fixed again, unless the trial was kept.
ghost use Rattle.std.specs.Prelude.{◌≡◌, true, Some, None, is_some, unwrap_or};
ghost use Rattle.vectors.specs.Freeing.{freed};
ghost use Rattle.vectors.specs.Views.{cells_of};

use vectors::vector::Vector;

pub struct Trial<'a> {
    vector: &'a mut Vector,
    // What the vector becomes again; nothing once the trial is kept.
    before: Option<Vector>,
}

impl<'a> Trial<'a> {
    // Frees the cell of an input.
    pub fn new(vector: &'a mut Vector, input: usize) -> Trial<'a>
        ensures remembers_the_vector { result.before ≡ Some vector.old }
        ensures is_not_kept { is_some result.before ≡ true }
        ensures frees_the_cell { cells_of result.vector.now ≡ freed (cells_of vector.old) input }
        ensures holds_the_lent_vector { result.vector.ghost_name ≡ vector.entry.ghost_name }
    {
        let before = *vector;
        *vector = before.freed(input);
        Trial {
            vector,
            before: Some(before),
        }
    }

    // Lets the cell stay free.
    pub fn keep(&mut self)
        ensures is_kept { self.new.before ≡ None }
        ensures leaves_the_vector { self.new.vector.now ≡ self.old.vector.now }
        ensures holds_the_lent_vector { self.new.vector.ghost_name ≡ self.old.vector.ghost_name }
    {
        self.before = None;
    }

    // The vector as the trial has it.
    pub fn look(&self) -> Vector
        ensures is_the_tried_vector { result ≡ self.now.vector.now }
    {
        *self.vector
    }
}

impl Drop for Trial<'_> {
    fn drop(self)
        ensures restores_the_vector_unless_kept { self.exit.0.now ≡ unwrap_or self.entry.before self.entry.vector.now }
    {
        let Trial { vector, before } = self;
        if let Some(before) = before {
            *vector = before;
        }
    }
}
