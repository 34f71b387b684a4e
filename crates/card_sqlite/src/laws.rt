//! Laws of the rows in a file. Their functions do nothing; their clauses are what holds.

ghost use Rattle.card_sqlite.specs.Closed.{RowsSurviveClose};

use sqlite_disk::Disk;

/// The rows of a database that is opened from files are those of what the files hold: an open of the files that
/// `Connection::close_files` left finds the table and the rows of the last commit. What is asked of both connections is what
/// `Connection::schema`, `close_files` and `open_files` say of theirs.
pub fn rows_survive_close<D: Disk>()
    ensures { RowsSurviveClose D.Disk }
{}
