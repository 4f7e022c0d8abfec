#![tactic(auto)]

// The circle of transaction numbers, for a host that keeps a limit across its restarts: README, "A restart".
ghost use Rattle.std.specs.Prelude.{◌≡◌};
ghost use Rattle.numbers.specs.Numbers.{is_number, after_of, Counted};

#[tactic(auto, unfolding(crate::specs::Numbers::is_number, octets::specs::Tests::every))]
pub fn is_number(n: u32) -> bool
    ensures { result ≡ is_number n }
{
    1 <= n && n <= 16777215
}

// The number `by` places after `number`; 0 where `number` is no transaction number.
pub fn number_after(number: u32, by: u32) -> u32
    ensures { result ≡ after_of number by }
{
    if !is_number(number) {
        return 0;
    }
    let sum = number + by % 16777215;
    if sum <= 16777215 {
        return sum;
    }
    sum - 16777215
}

// How many numbers from `number` on come before `limit`; 0 where one of the two is no transaction number.
pub fn numbers_left(number: u32, limit: u32) -> u32
    ensures { Counted number limit result }
{
    if !is_number(number) {
        return 0;
    }
    if !is_number(limit) {
        return 0;
    }
    if number <= limit {
        return limit - number;
    }
    limit + 16777215 - number
}
