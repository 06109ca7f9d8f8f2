// Tickets in a wallet: a ticket that a job hands back returns to its place.
ghost use Rattle.std.specs.Prelude.{◌≡◌, ◌+◌, ◌<◌, ◌≤◌, vec_len, vec_capacity};
ghost use Rattle.std.specs.List.{insert};

use job::Ticket;

// Puts the ticket back at its place.
pub(crate) fn put_back(wallet: &mut Vec<Ticket>, place: usize, ticket: Ticket)
    requires a_place { place ≤ vec_len wallet.old }
    requires room { vec_len wallet.old < vec_capacity wallet.old }
    ensures stands_at_its_place { wallet.new.items ≡ insert wallet.old.items place ticket }
    ensures one_more { vec_len wallet.new ≡ vec_len wallet.old + 1 }
    ensures room_stays { vec_capacity wallet.old ≤ vec_capacity wallet.new }
{
    if let Err(_back) = wallet.insert(place, ticket) {
        unreachable!()
    }
}
