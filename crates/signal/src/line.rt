// The line that sticks: a net with all its readers, or one pin of one gate.
// No line (`None`) is the good card, where nothing sticks.
ghost use Rattle.std.specs.Prelude.{◌≡◌};
ghost use Rattle.signal.specs.Walks.{is_net, is_pin, level_of, net_of, sticks_net, sticks_pin};

#[derive(Clone, Copy, PartialEq, Eq)]
pub enum Line {
    // A net, by its number.
    Net(u16),
    // One pin of the gate that makes a net: the net's number, then the pin's, from 0.
    Pin(u16, u8),
}

// A line and the level that it is stuck at.
#[derive(Clone, Copy, PartialEq, Eq)]
pub struct Stuck {
    pub line: Line,
    pub level: bool,
}

impl Line {
    // The net itself, or the net that the pin's gate makes: where the line changes a walk first.
    pub fn net(self) -> usize
        ensures is_the_lines_net { result ≡ net_of self }
    {
        match self {
            Line::Net(net) => usize::from(net),
            Line::Pin(net, _) => usize::from(net),
        }
    }

    // Whether the line is this net.
    fn is_net(self, net: usize) -> bool
        ensures tells_whether_it_is_the_net { result ≡ is_net self net }
    {
        matches!(self, Line::Net(own) if own as usize == net)
    }

    // Whether the line is this pin of the gate that makes this net.
    fn is_pin(self, net: usize, pin: u8) -> bool
        ensures tells_whether_it_is_the_pin { result ≡ is_pin self net pin }
    {
        matches!(self, Line::Pin(own, own_pin) if own as usize == net && own_pin == pin)
    }
}

// Whether a net sticks.
pub fn sticks_net(stuck: Option<Stuck>, net: usize) -> bool
    ensures tells_whether_the_net_sticks { result ≡ sticks_net stuck net }
{
    stuck.is_some_and(|fault| fault.line.is_net(net))
}

// Whether a pin of the gate that makes a net sticks.
pub fn sticks_pin(stuck: Option<Stuck>, net: usize, pin: u8) -> bool
    ensures tells_whether_the_pin_sticks { result ≡ sticks_pin stuck net pin }
{
    stuck.is_some_and(|fault| fault.line.is_pin(net, pin))
}

// The level of what sticks.
pub fn level(stuck: Option<Stuck>) -> bool
    ensures is_the_stuck_level { result ≡ level_of stuck }
{
    stuck.is_some_and(|fault| fault.level)
}
