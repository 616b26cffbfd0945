use std::alloc::{AllocError, Global};

/// Sheet 7 of the worked example.
pub(crate) const SEVEN: &[u8] =
    b"H,7,2,1,3,2\nC,0,0\nC,0,1\nS,0,1,0\nS,1,0,2\nS,2,0,3\nL,0,0,0,300\nL,0,1,0,300\nL,1,0,1,400\nL,1,1,0,300\nL,2,0,1,400\nL,2,1,0,400\nT,0,1\nT,1,2\nT,2,0\nF,0,M,0\nF,1,C,0,1,0\nF,2,K,0,1,0\nF,3,U,1,2\nF,4,X,3\nF,5,G,1\n";

/// Two states from which nothing is accessible for 0 and 1, because no copy of 0 is a copy of 1.
pub(crate) const INACCESSIBLE: &[u8] =
    b"H,8,2,1,2,1\nC,0,0\nC,0,1\nS,0,1,0\nS,1,0,0\nL,0,0,0,1\nL,0,1,0,2\nL,1,0,0,3\nL,1,1,0,4\nT,0,1\nT,1,0\nF,0,M,0\nF,1,C,0,1,0\nF,2,K,0,1,0\n";

/// The text of a chain of so many states, each with a move to the next and the last to itself.
pub(crate) fn chain(heap: Global, states: usize) -> Result<String, AllocError> {
    let mut text = format!(in heap; "H,1,2,0,{states},1\n")?;
    for state in 0..states {
        let start = u8::from(state == 0);
        text.push_str(format!(in heap; "S,{state},{start},1\n")?.as_str())?;
    }
    for state in 0..states {
        text.push_str(format!(in heap; "L,{state},0,0\nL,{state},1,0\n")?.as_str())?;
    }
    for state in 0..states {
        let next = if state + 1 < states { state + 1 } else { state };
        text.push_str(format!(in heap; "T,{state},{next}\n")?.as_str())?;
    }
    text.push_str("F,0,M,0\nF,1,X,0\n")?;
    Ok(text)
}
