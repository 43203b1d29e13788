// What the program prints.
use refusals::Refusal;
use std::io;

// The seconds of the calls, and how the list ended.
pub fn print_calls(rt: &impl Print, calls: &[u32], ended: Result<(), Refusal>) -> io::Result<()> {
    for seconds in calls {
        println!(rt; "{seconds}")?;
    }
    println!(rt; "end {} calls {}", refusals::number(&ended), calls.len())
}
