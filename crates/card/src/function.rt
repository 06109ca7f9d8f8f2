// The ten functions of a gate, with the number that stands for each in a command and the pins that each reads.
ghost use Rattle.std.specs.Prelude.{◌≡◌, ℕ, ◌<◌, ◌≤◌};
ghost use Rattle.card.specs.Functions.{function_number, pin_count};
ghost use Rattle.card.specs.Numbers.{Numbers};

#[derive(Clone, Copy, PartialEq, Eq, Default)]
pub enum Function {
    Ida = 0,
    And2 = 1,
    Or2 = 2,
    Xor2 = 3,
    Inva = 4,
    Nand2 = 5,
    Nor2 = 6,
    Xnor2 = 7,
    #[default]
    Zero = 8,
    One = 9,
}

impl Function {
    // The last digit of the function's command.
    pub fn number(self) -> u8
        ensures is_the_functions_number { result ≡ function_number self }
        ensures one_digit { result ≤ 9 }
    {
        self as u8
    }

    // How many nets a gate of this function reads.
    pub fn pins(self) -> usize
        ensures is_the_functions_pin_count { result ≡ pin_count self }
        ensures at_most_two { result ≤ 2 }
    {
        match self {
            Function::Zero | Function::One => 0,
            Function::Ida | Function::Inva => 1,
            _ => 2,
        }
    }
}

// A number that is no function's.
#[derive(Clone, Copy, PartialEq, Eq, Debug)]
pub struct UnknownFunction(pub u8);

impl TryFrom<u8> for Function {
    type Error = UnknownFunction;

    ghost try_from_gives = { Numbers };

    fn try_from(number: u8) -> Result<Function, UnknownFunction> {
        match number {
            0 => Ok(Function::Ida),
            1 => Ok(Function::And2),
            2 => Ok(Function::Or2),
            3 => Ok(Function::Xor2),
            4 => Ok(Function::Inva),
            5 => Ok(Function::Nand2),
            6 => Ok(Function::Nor2),
            7 => Ok(Function::Xnor2),
            8 => Ok(Function::Zero),
            9 => Ok(Function::One),
            _ => Err(UnknownFunction(number)),
        }
    }
}
