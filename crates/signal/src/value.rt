// The value of one net: what a gate makes of its pins, with a pin or the net itself stuck or not.
// A gate joins its pins from the first to the last and then takes its last step, so a gate of more pins needs one line here.
ghost use Rattle.std.specs.Prelude.{◌≡◌, ◌<◌, true, false, slice_index_or};
ghost use Rattle.card.specs.Netlists.{all_below, pins_of};
ghost use Rattle.signal.specs.Joins.{ended, joins, unit};
ghost use Rattle.signal.specs.Walks.{gate_net, sticks_pin, unless_stuck};

use crate::kind::Signal;
use crate::line::{Stuck, level, sticks_net, sticks_pin};
use card::function::Function;
use card::gate::{Gate, Operands};

// What two pins of a gate make together, before the gate's last step.
fn join<S: Signal + Copy>(function: Function, x: S, y: S) -> S
    ensures joins_by_the_function { result ≡ joins S.Signal.operations function x y }
{
    match function {
        Function::And2 | Function::Nand2 => S::and(x, y),
        Function::Xor2 | Function::Xnor2 => S::xor(x, y),
        _ => S::or(x, y),
    }
}

// What stands for no pin at all.
fn no_pin<S: Signal + Copy>(function: Function) -> S
    ensures is_the_functions_unit { result ≡ unit S.Signal.operations function }
{
    match function {
        Function::And2 | Function::Nand2 => S::constant(true),
        _ => S::constant(false),
    }
}

// A gate's last step: the negation, or the constant of a gate that reads nothing.
fn end<S: Signal + Copy>(function: Function, x: S) -> S
    ensures ends_by_the_function { result ≡ ended S.Signal.operations function x }
{
    match function {
        Function::Ida | Function::And2 | Function::Or2 | Function::Xor2 => x,
        Function::Inva | Function::Nand2 | Function::Nor2 | Function::Xnor2 => S::not(x),
        Function::Zero => S::constant(false),
        Function::One => S::constant(true),
    }
}

// A net, mostly one that a gate makes, beside the line that sticks.
#[derive(Clone, Copy)]
pub(crate) struct GateNet {
    pub(crate) stuck: Option<Stuck>,
    pub(crate) net: usize,
}

impl GateNet {
    // The stuck level where the test holds, else the value.
    pub(crate) fn unless_stuck<S: Signal + Copy>(self, sticks: bool, x: S) -> S
        ensures is_the_level_or_the_value { result ≡ unless_stuck S.Signal.operations self.stuck sticks x }
    {
        if sticks {
            S::constant(level(self.stuck))
        } else {
            x
        }
    }

    // The value at a pin: the stuck level where this pin sticks, else the value of the net that it reads.
    fn pin<S: Signal + Copy>(self, pin: u8, nets: &[S; 256], read: u16) -> S
        requires reads_a_net { read < 256 }
        ensures is_the_pins_value { result ≡ unless_stuck S.Signal.operations self.stuck (sticks_pin self.stuck self.net pin) (slice_index_or nets.now read (S.Signal.operations.constant false)) }
    {
        self.unless_stuck(sticks_pin(self.stuck, self.net, pin), nets[read as usize])
    }

    // The value of the net, which the gate makes from the nets before it. Inlined into the walk, which calls it for every gate.
    #[inline(always)]
    pub(crate) fn value<S: Signal + Copy>(self, gate: Gate, nets: &[S; 256]) -> S
        requires reads_nets { all_below 256 (pins_of gate) ≡ true }
        ensures is_the_nets_value { result ≡ gate_net S.Signal.operations self.stuck nets.now self.net gate }
    {
        let function = gate.function;
        let joined = match gate.operands {
            Operands::None => no_pin(function),
            Operands::One(a) => self.pin(0, nets, a),
            Operands::Two(a, b) => {
                let first = self.pin(0, nets, a);
                let second = self.pin(1, nets, b);
                join(function, first, second)
            }
        };
        self.unless_stuck(sticks_net(self.stuck, self.net), end(function, joined))
    }
}
