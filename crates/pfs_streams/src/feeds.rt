//! A reader under a bound of reads: so no run waits for an end that never comes.

ghost use Rattle.std.specs.Prelude.{◌≡◌, ◌≢◌, ◌⊎◌, ◌+◌, ◌-◌, ◌^◌, ◌<◌, ◌≤◌, ◌↔◌, ℕ, List, Option, true, false, length, IfErr, IfOk, OnOk, OnErr, IsErr, IsTrue};
ghost use Rattle.std.specs.Io.{ReadsAtMost};
ghost use Rattle.std.specs.Io.KnownBytes.{ReadConsumes};
ghost use Rattle.std.specs.IoError.{error_kind};
ghost use Rattle.pfs_streams.specs.Feeds.{FeedView, HasReads, BeganWell, SameReads, unread, unread_behind, reader_of, bound_of, reads_of, read_failures, has_ended, HasFailed, IsSpent, IsFresh, MayRead, IsClosed};

use std::io;
use std::io::{Error, ErrorKind, Read};
use std::marker::Model;

/// How often a reader was read, of how many times it may be, and how the reads ended.
#[derive(Clone, Copy, Debug)]
pub struct ReadCount {
    bound: u64,
    made: u64,
    failures: u64,
    ended: bool,
    ghost within: { made ≤ bound },
    ghost end_was_read: { ended ≡ true → 0 < made },
    ghost ended_or_failed: { ended ≡ true → failures ≡ 0 },
}

/// A reader of which at most a given number of reads are made.
///
/// After its reader's end a feed gives no bytes, and after a failure it fails, without
/// reading its reader again. The read after the last of the bound is not made: it fails.
///
/// No contract of a reader can say that a read of it failed. So "a failure is counted only where the reader failed" is
/// said here as far as it can be: the count rises only in a read that was made and returns an error.
#[derive(Debug, Drop)]
pub struct Feed<R> {
    reader: R,
    reads: ReadCount,
}

impl<R> Model for Feed<R> {
    ghost Value = { FeedView R };

    ghost view = { λ f. record { reader = f.reader; bound = f.reads.bound; made = f.reads.made; failures = f.reads.failures; ended = f.reads.ended } };
}

impl<R> Feed<R> {
    /// A feed of `reader` that makes at most `reads` reads, and has made none.
    pub fn new(reader: R, reads: u64) -> Feed<R>
        ensures reader { reader_of result ≡ reader }
        ensures bound { bound_of result ≡ reads }
        ensures fresh { IsFresh result }
    {
        Feed {
            reader,
            reads: ReadCount {
                bound: reads,
                made: 0,
                failures: 0,
                ended: false,
            },
        }
    }

    /// A feed of a program's input: of 2^40 reads at most.
    pub fn of_input(reader: R) -> Feed<R>
        ensures reader { reader_of result ≡ reader }
        ensures bound { bound_of result ≡ 2 ^ 40 }
        ensures fresh { IsFresh result }
    {
        Feed::new(reader, 1_099_511_627_776)
    }

    /// A feed of a capture: of 2^64 - 1 reads at most, more than a run can make.
    pub fn of_capture(reader: R) -> Feed<R>
        ensures reader { reader_of result ≡ reader }
        ensures bound { bound_of result ≡ 2 ^ 64 - 1 }
        ensures fresh { IsFresh result }
    {
        Feed::new(reader, u64::MAX)
    }

    /// How many reads of the reader failed. It is 0 or 1, since no read follows a failure.
    pub fn failures(&self) -> u64
        ensures { result ≡ read_failures self.now }
    {
        self.reads.failures
    }

    /// Whether all reads of the bound are made, and each gave a byte.
    pub fn spent(&self) -> bool
        ensures { IsTrue result ↔ IsSpent self.now }
    {
        let ReadCount {
            bound,
            made,
            failures,
            ended,
        } = self.reads;
        made == bound && !ended && failures == 0
    }

    /// The reads that were made, of how many, and how they ended.
    pub fn reads(&self) -> ReadCount
        ensures { HasReads self.now result.bound result.made result.failures result.ended }
    {
        self.reads
    }

    /// Lends a feed of which a read was made, and none failed. What is lent reads on under the same bound, and counts its
    /// reads. The feed goes on after them by `resume`; until then nothing is known of it.
    pub fn lend(&mut self) -> Begun<'_, R>
        requires begun { 0 < reads_of self.old }
        requires sound { read_failures self.old ≡ 0 }
        ensures bytes { (remaining : R → Option (List ℕ)) → unread_behind remaining result.feed ≡ unread remaining self.old }
        ensures same { SameReads self.old result.feed }
    {
        Begun {
            feed: Feed {
                reader: &mut self.reader,
                reads: self.reads,
            },
        }
    }

    /// Goes on after the reads that its borrower made.
    pub fn resume(&mut self, back: GivenBack)
        ensures goes_on { HasReads self.new back.reads.bound back.reads.made back.reads.failures back.reads.ended }
        ensures begun { BeganWell (reads_of self.new) (read_failures self.new) }
    {
        self.reads = back.reads;
    }
}

/// A feed that is lent, of which a read was made that did not fail. Whatever is done with it, that read is counted.
#[derive(Drop)]
pub struct Begun<'a, R> {
    feed: Feed<&'a mut R>,
    ghost was_read: { BeganWell (reads_of feed) (read_failures feed) },
}

/// The reads of a feed that was lent, as its borrower left them. Only the borrower can give them back: by `Begun::give_back`,
/// once.
#[derive(Drop)]
pub struct GivenBack {
    reads: ReadCount,
    ghost was_read: { BeganWell reads.made reads.failures },
}

impl<R> Begun<'_, R> {
    /// Ends the loan. `lent` is what `reads` gave as the feed was lent; where the two have other bounds, that is given back.
    pub fn give_back(self, lent: ReadCount) -> GivenBack
        requires lent { BeganWell lent.made lent.failures }
        ensures bound { result.reads.bound ≡ lent.bound }
        ensures reads { lent.bound ≡ bound_of self.entry.feed →
            HasReads self.entry.feed result.reads.bound result.reads.made result.reads.failures result.reads.ended }
    {
        let reads = self.feed.reads;
        GivenBack {
            reads: if reads.bound == lent.bound {
                reads
            } else {
                lent
            },
        }
    }
}

impl<R: Read> Read for Begun<'_, R> {
    ghost remaining = { λ b. unread_behind R.remaining b.feed };

    /// Reads as the feed does.
    fn read(&mut self, buf: &mut [u8]) -> io::Result<usize>
        ensures bound { ReadsAtMost result buf.new }
        ensures bytes { ReadConsumes (unread_behind R.remaining self.old.feed) (unread_behind R.remaining self.new.feed) result buf.new }
        ensures made { MayRead self.old.feed → 0 < length buf.old → reads_of self.new.feed ≡ reads_of self.old.feed + 1 }
        ensures closed { IsClosed self.old.feed → 0 < length buf.old → IsErr result × (self.new.feed ≡ self.old.feed) }
        ensures same_bound { bound_of self.new.feed ≡ bound_of self.old.feed }
        ensures fails { OnErr result (HasFailed self.new.feed) }
        ensures refuses { IfErr result (λ e. error_kind e ≢ ErrorKind.Interrupted) }
        ensures counts { (read_failures self.new.feed ≡ read_failures self.old.feed)
            ⊎ (IsErr result × MayRead self.old.feed × (0 < length buf.old) × (read_failures self.new.feed ≡ read_failures self.old.feed + 1)) }
    {
        self.feed.read(buf)
    }
}

impl<R: Read> Read for Feed<R> {
    ghost remaining = { unread R.remaining };

    /// Reads into `buf` by at most one read of the reader.
    ///
    /// An empty buffer and a feed that has ended give 0 bytes. A feed that failed, or that has
    /// made all its reads, answers an error of kind `Other`, never `Interrupted`, which std's
    /// loops would try again. Takes no memory.
    fn read(&mut self, buf: &mut [u8]) -> io::Result<usize>
        ensures bound { ReadsAtMost result buf.new }
        ensures bytes { ReadConsumes (unread R.remaining self.old) (unread R.remaining self.new) result buf.new }

        // One read of the reader, or none.
        ensures made { MayRead self.old → 0 < length buf.old → reads_of self.new ≡ reads_of self.old + 1 }
        ensures empty { length buf.old ≡ 0 → (result ≡ Ok 0) × (self.new ≡ self.old) }
        ensures ended { has_ended self.old ≡ true → (result ≡ Ok 0) × (self.new ≡ self.old) }
        ensures closed { IsClosed self.old → 0 < length buf.old → IsErr result × (self.new ≡ self.old) }
        ensures same_bound { bound_of self.new ≡ bound_of self.old }

        // What is known after it.
        ensures grows { reads_of self.old ≤ reads_of self.new }
        ensures begun { OnOk result (0 < length buf.old → 0 < reads_of self.new) }
        ensures at_end { result ≡ Ok 0 → 0 < length buf.old → has_ended self.new ≡ true }
        ensures goes_on { IfOk result (λ n. 0 < n → has_ended self.new ≡ false) }
        ensures gives { OnOk result (read_failures self.new ≡ read_failures self.old) }
        ensures sound { OnOk result (0 < length buf.old → read_failures self.new ≡ 0) }
        ensures fails { OnErr result (HasFailed self.new) }
        ensures refuses { IfErr result (λ e. error_kind e ≢ ErrorKind.Interrupted) }
        ensures counts { (read_failures self.new ≡ read_failures self.old)
            ⊎ (IsErr result × MayRead self.old × (0 < length buf.old) × (read_failures self.new ≡ read_failures self.old + 1)) }
    {
        if buf.is_empty() || self.reads.ended {
            return Ok(0);
        }
        if self.reads.failures > 0 || self.reads.made == self.reads.bound {
            return Err(Error::new(ErrorKind::Other, "the feed gives no more"));
        }
        self.reads.made += 1;
        match self.reader.read(buf) {
            Ok(n) => {
                self.reads.ended = n == 0;
                Ok(n)
            }
            Err(_) => {
                self.reads.failures += 1;
                Err(Error::new(ErrorKind::Other, "the reader failed"))
            }
        }
    }
}
