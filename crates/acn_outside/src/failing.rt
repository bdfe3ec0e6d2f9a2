ghost use Rattle.std.specs.Prelude.{◌≡◌};
ghost use Rattle.acn_outside.specs.Memory.{fails, one_more};

/// The numbers, from 0, of the calls that fail, and the number of the next call.
#[derive(Drop)]
pub struct Failing {
    numbers: Vec<u64>,
    call: u64,
}

impl Failing {
    /// The calls whose numbers are listed fail, and no others.
    pub fn new(numbers: Vec<u64>) -> Failing
        ensures numbers { result.numbers ≡ numbers }
        ensures call { result.call ≡ 0 }
    {
        Failing { numbers, call: 0 }
    }

    /// Whether the next call fails. It counts that call.
    pub fn next_fails(&mut self) -> bool
        ensures listed { result ≡ fails self.old.numbers.items self.old.call }
        ensures numbers { self.new.numbers ≡ self.old.numbers }
        ensures call { self.new.call ≡ one_more self.old.call }
    {
        let call = self.call;
        self.call = call.saturating_add(1);
        self.numbers.contains(&call)
    }
}
