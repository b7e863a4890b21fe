use std::alloc::AllocError;
use std::io;
use std::io::{BufRead, BufReader};

// Prints what is answered to each line of standard input, as it comes. The lines are numbered from 1, and come with the LF that ends them.
// One buffer serves every line: `split` would make a new one for each.
pub(crate) fn answer_each<F: FnMut(u64, &[u8]) -> Result<String, AllocError> + Drop>(
    rt: &(impl Input + Print + AllocGlobal),
    mut answer: F,
) -> io::Result<()>
    requires { F.IsAlwaysCallable answer }
{
    let heap = rt.alloc();
    let mut input = BufReader::new(heap, rt.reader())?;
    let mut line = Vec::new(heap);
    for number in 1..u64::MAX {
        line.clear();
        if input.read_until(b'\n', &mut line)? == 0 {
            break;
        }
        let text = answer(number, line.as_slice())?;
        print!(rt; "{text}")?;
    }
    Ok(())
}
