// What is done with the bytes of a payload: they are added up, or all turned over.

// Adler's prime.
const PRIME: u64 = 65521;

// Adler's sum of the bytes, which tells their order too; 1 of none.
pub fn sum_of(part: &[u8]) -> u64 {
    let mut a: u64 = 1;
    let mut b: u64 = 0;
    for x in part {
        a = (a + u64::from(*x)) % PRIME;
        b = (b + a) % PRIME;
    }
    65536 * b + a
}

// Every bit of the bytes becomes the other.
pub fn turn_over(part: &mut [u8]) {
    for x in part.iter_mut() {
        *x = !*x;
    }
}
