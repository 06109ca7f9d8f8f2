// What can be asked of a job, as data. A ticket goes by its place in the wallet.

#[derive(Clone, Copy)]
pub enum Request {
    // Take the fault of this number; its ticket is put last into the wallet.
    Take(usize),
    // Search with the ticket at this place, within this budget.
    Search(usize, u64),
    // Close the ticket at this place; it leaves the wallet.
    Close(usize),
    // Sweep by the vector of this number.
    Sweep(usize),
    // Add the vector of these two numbers, care and value.
    Add(u32, u32),
    // Merge the second vector into the first.
    Merge(usize, usize),
}
