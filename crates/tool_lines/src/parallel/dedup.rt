//! The tool `dedup` by several threads.
use crate::dedup::write_line;
use crate::faults::Fault;
use crate::line_set::HashedLine;
use crate::parallel::hashed_lines::hash_lines;
use crate::parallel::line_part::LinePart;
use crate::parallel::portion::Portion;
use std::alloc::{AllocError, Allocator};
use std::io::Write;
use std::thread;
use std::thread::Threads;

/// The lines that were met, in as many parts as there are threads.
#[derive(Drop)]
pub struct RoundLines<A: Allocator + Copy> {
    parts: Vec<LinePart<A>, A>,
    alloc: A,
}

impl<A: Allocator + Copy> RoundLines<A> {
    /// Makes the tool, which has met no line. `Err`: memory was refused.
    pub fn new(alloc: A, threads: usize) -> Result<Self, AllocError> {
        let mut parts = Vec::with_capacity(alloc, threads)?;
        for _part in 0..threads {
            parts.push(LinePart::new(alloc))?;
        }
        Ok(RoundLines { parts, alloc })
    }

    /// Writes the new lines of the pieces, in order.
    fn write_round<W: Write>(
        &self,
        pieces: &[Vec<HashedLine<'_>, A>],
        output: &mut W,
    ) -> Result<(), Fault> {
        for (index, lines) in pieces.iter().enumerate() {
            let new = self.new_of(index, lines.len())?;
            write_marked(lines.as_slice(), new.as_slice(), output)?;
        }
        Ok(())
    }

    /// Returns which of the lines of the piece with this index are new. `Err`: memory was refused, now or to a part.
    fn new_of(&self, index: usize, lines: usize) -> Result<Vec<bool, A>, AllocError> {
        let mut is_new = Vec::from_elem(self.alloc, false, lines)?;
        for part in &self.parts {
            let Some(news) = &part.news else {
                return Err(AllocError);
            };
            if let Some(new) = news.get(index) {
                mark(is_new.as_mut_slice(), new.as_slice());
            }
        }
        Ok(is_new)
    }
}

/// Marks what has these indices.
fn mark(marks: &mut [bool], indices: &[usize]) {
    for at in indices {
        if let Some(mark) = marks.get_mut(*at) {
            *mark = true;
        }
    }
}

/// Writes the lines that are marked.
fn write_marked<W: Write>(
    lines: &[HashedLine<'_>],
    marks: &[bool],
    output: &mut W,
) -> Result<(), Fault> {
    for (line, mark) in lines.iter().zip(marks) {
        if *mark {
            write_line(line.bytes, output)?;
        }
    }
    Ok(())
}

impl<A: Allocator + Copy + Send + Sync> RoundLines<A> {
    /// Forgets all lines. Each part is freed by a thread of its own.
    pub fn clear<R: Threads + Sync>(&mut self, rt: &R) {
        let parts = self.parts.len();
        thread::for_each_mut(
            rt,
            self.parts.as_mut_slice(),
            parts.max(1),
            &|_, part| part.clear(),
        );
    }

    /// Writes each line of the pieces that is not equal to an earlier one. If memory is refused, lines of the first pieces may be written.
    pub fn take_round<R: Threads + Sync, W: Write>(
        &mut self,
        rt: &R,
        pieces: &[Vec<u8, A>],
        output: &mut W,
    ) -> Result<(), Fault> {
        let lines = hash_round(rt, self.alloc, pieces)?;
        self.split_round(rt, lines.as_slice());
        self.write_round(lines.as_slice(), output)
    }

    /// Lets each part take its portion of the lines, by a thread of its own.
    fn split_round<R: Threads + Sync>(&mut self, rt: &R, pieces: &[Vec<HashedLine<'_>, A>]) {
        let parts = self.parts.len();
        thread::for_each_mut(
            rt,
            self.parts.as_mut_slice(),
            parts.max(1),
            &|number, part| part.take_round(Portion { number, parts }, pieces),
        );
    }
}

/// Returns the lines of each piece. Each piece is read by a thread of its own.
fn hash_round<'p, R: Threads + Sync, A: Allocator + Copy + Send + Sync>(
    rt: &R,
    alloc: A,
    pieces: &'p [Vec<u8, A>],
) -> Result<Vec<Vec<HashedLine<'p>, A>, A>, AllocError> {
    let hashed = thread::map_indices(
        rt,
        alloc,
        pieces.len(),
        &|at| hash_lines(alloc, pieces[at].as_slice()),
    )?;
    let mut all = Vec::with_capacity(alloc, pieces.len())?;
    for lines in hashed {
        all.push(lines?)?;
    }
    Ok(all)
}
