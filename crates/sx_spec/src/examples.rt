//! Worked examples: what an account without entries answers to a short run, each the contract of a function that does
//! nothing.

ghost use Rattle.sx_spec.specs.Runs.{AByteIsLocked, ADirectoryIsNotEmpty, AFileIsDeletedOnClose};
ghost use Rattle.sx_spec.specs.Runs.{AFileWithAnOpenIsMadeAnew, AHolderMeetsItsOwnSharedLock, ALeaseMeetsAnOpen};
ghost use Rattle.sx_spec.specs.Runs.{AParentIsPending, ASessionWritesAndReads, ASnapshotAsksNothingOfOthers};
ghost use Rattle.sx_spec.specs.Runs.{AWritePassesTheQuota, EnoughIsShared, HandlesAreClosedByScope};
ghost use Rattle.sx_spec.specs.Runs.{NamesAreComparedFolded, NoReadingIsShared, TheFirstCheckIsTold};
ghost use Rattle.sx_spec.specs.Runs.{TooLittleIsShared, TwoSnapshotsAtOneMoment};

/// An open that shares too little: the first reads and lets others write, so another that writes and lets others read
/// may stand beside it, and one that lets others write alone may not.
pub fn an_open_shares_too_little()
    ensures enough { EnoughIsShared }
    ensures too_little { TooLittleIsShared }
{}

/// A call over REST is an open that shares all: it reads nothing of a file whose open lets others only write, and is
/// told its properties all the same.
pub fn an_open_shares_no_reading()
    ensures { NoReadingIsShared }
{}

/// A shared lock forbids writing to its own holder too, and an exclusive lock over it; an unlock names its very kind.
pub fn a_holder_meets_its_own_shared_lock()
    ensures { AHolderMeetsItsOwnSharedLock }
{}

/// A locked byte: an exclusive lock of bytes 10 to 19 forbids reading byte 10 over REST, and neither the bytes before
/// it nor those behind it; it goes with its handle.
pub fn a_byte_is_locked()
    ensures { AByteIsLocked }
{}

/// Delete on close while a second open stands: the file is pending, and goes with its last open; a file of the same
/// name is another.
pub fn a_file_is_deleted_on_close()
    ensures { AFileIsDeletedOnClose }
{}

/// A lease and an open: a lease that is held wants its id of every write over REST and refuses opens that write; an
/// open that writes refuses that a lease is acquired.
pub fn a_lease_meets_an_open()
    ensures { ALeaseMeetsAnOpen }
{}

/// Two snapshots at one moment: the second has the next tick. What a snapshot keeps stands after the file was changed
/// and deleted, and a share with snapshots is deleted only with them.
pub fn two_snapshots_at_one_moment()
    ensures { TwoSnapshotsAtOneMoment }
{}

/// A snapshot asks for no lease, open or lock, and keeps no node pending: it is read while an open forbids reading the
/// file, and after the file was deleted under an open.
pub fn a_snapshot_asks_nothing_of_others()
    ensures { ASnapshotAsksNothingOfOthers }
{}

/// A write beyond the quota: bytes in a marked granule are written, and one in another granule is refused, over REST
/// and past the end of a file that a session would make longer. A quota of 0 GiB, which no request can ask for, stands
/// for one that is used up.
pub fn a_write_passes_the_quota()
    ensures { AWritePassesTheQuota }
{}

/// A directory that isn't empty isn't deleted; it is once what is in it was.
pub fn a_directory_is_not_empty()
    ensures { ADirectoryIsNotEmpty }
{}

/// A pending parent: in a directory that was deleted while an open of it stands no name is made, by REST or by a
/// session; with the open it goes, and then the parent is absent.
pub fn a_parent_is_pending()
    ensures { AParentIsPending }
{}

/// Create File over a file with an open: the file keeps its id and its open, which reads the new bytes; an open that
/// lets others read alone refuses it.
pub fn a_file_with_an_open_is_made_anew()
    ensures { AFileWithAnOpenIsMadeAnew }
{}

/// Force close by scope: the opens of a directory alone, one handle that isn't below it, and all that is below it. A
/// share with an open isn't deleted; the end of its session closes it.
pub fn handles_are_closed_by_scope()
    ensures { HandlesAreClosedByScope }
{}

/// A session's lines: an open makes a file, which is written, read and closed; a closed handle is none; a name that is
/// there isn't made, and one that is absent isn't opened.
pub fn a_session_writes_and_reads()
    ensures { ASessionWritesAndReads }
{}

/// Names are the same by their full case folding: what was made with a sharp s is found in capitals.
pub fn names_are_compared_folded()
    ensures { NamesAreComparedFolded }
{}

/// The first check that applies is the answer: of a write over REST that a lease, an open and a lock forbid and that
/// begins past the end, the lease is told first, then the open, then the lock, then the range.
pub fn the_first_check_is_told()
    ensures { TheFirstCheckIsTold }
{}
