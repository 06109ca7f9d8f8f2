// What a printed sheet answers: how long the text is, and the fault of a bad card.
use reading::fault::CardFault;

#[derive(Clone, Copy)]
pub struct Sheet {
    pub length: usize,
    pub fault: Option<CardFault>,
}
