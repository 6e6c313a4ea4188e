// Texts with their transcripts, which were worked out by hand; the plain model of tools/day_by_hand gives the same.
use std::alloc::{AllocError, Global};

#[derive(Clone, Copy)]
pub(crate) struct Sample {
    pub(crate) text: &'static [u8],
    pub(crate) shown: &'static [u8],
}

// A day with two prints, an election and a refusal.
pub(crate) const DAY: Sample = Sample {
    text: b"G\t2\tL\t2010\nN\tS\t7\t2012\t300\nN\tS\t8\t2015\t900\nT\tB\t9\t2015\t200\nO\nM\tB\t5\t800\nC\t6\t2\nZ\n",
    shown: b"A\t1\nA\t2\nA\t3\nA\t4\nP\t4\t2012\t300\t2000\t2020\nP\t4\t2015\t500\t2000\t2020\nE\t3\nP\t3\t2015\t200\t2000\t2020\n!\t7\tM\t52\t0\nZ\t2200\t1000\t0\t200\n",
};

// The first line is empty, and the last has no end.
pub(crate) const LEADING_LINE_END: Sample = Sample {
    text: b"\nO\nZ",
    shown: b"!\t1\tT\t11\t0\nZ\t0\t0\t0\t0\n",
};

pub(crate) const NOTHING: Sample = Sample {
    text: b"",
    shown: b"",
};

pub(crate) const LINE_ENDS: Sample = Sample {
    text: b"\n\n",
    shown: b"!\t1\tT\t11\t0\n!\t2\tT\t11\t0\n",
};

// So many equal pieces.
pub(crate) fn push_times(text: &mut Vec<u8>, piece: &[u8], times: usize) -> Result<(), AllocError> {
    for _ in 0..times {
        text.extend_from_slice(piece)?;
    }
    Ok(())
}

// The refusals of lines from one to before another, all alike.
pub(crate) fn push_refusals(
    shown: &mut Vec<u8>,
    heap: Global,
    from: u32,
    to: u32,
    why: &str,
) -> Result<(), AllocError> {
    for line in from..to {
        let refusal = format!(in heap; "!\t{line}\t{why}\n")?;
        shown.extend_from_slice(refusal.as_bytes())?;
    }
    Ok(())
}
