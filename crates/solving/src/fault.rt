// Why a solver refuses a call. Each call has refusals of its own, and every case has its number.
ghost use Rattle.std.specs.Prelude.{◌≡◌};
ghost use Rattle.solving.specs.Refusals.{start_number, append_number, value_number};

#[derive(Clone, Copy)]
pub enum StartFault {
    // Not 1 ≤ leading ≤ 32, or not leading ≤ variables ≤ 560.
    Size = 19,
}

#[derive(Clone, Copy)]
pub enum AppendFault {
    // A literal is 0, or its variable is above the number of variables.
    Literal = 20,
    // More than 9,216 places would be used.
    Places = 21,
}

#[derive(Clone, Copy)]
pub enum ValueFault {
    // No such variable.
    Variable = 22,
    // There is no reading.
    Reading = 23,
}

impl StartFault {
    pub fn number(self) -> u8
        ensures is_the_start_faults_number { result ≡ start_number self }
    {
        self as u8
    }
}

impl AppendFault {
    pub fn number(self) -> u8
        ensures is_the_append_faults_number { result ≡ append_number self }
    {
        self as u8
    }
}

impl ValueFault {
    pub fn number(self) -> u8
        ensures is_the_value_faults_number { result ≡ value_number self }
    {
        self as u8
    }
}
