//! What `--help` says of each command after its usage.

pub(crate) const PROGRAM: &str = "\
Every command reads standard input and takes no names of files, as in: nfstream check < FILE
Names of commands, forms and options are in lower case.

Status:
  0  done
  1  check or test found something
  2  the command line is refused
  3  the input is refused: standard error says why, and at which byte or line
  4  a read or a write failed
  5  memory ran out
  6  the input is too long";

pub(crate) const CONVERT: &str = "\
Reads UTF-8 from standard input, and writes the form to standard output:

  nfstream convert --form nfc < FILE > FILE.nfc

Into runs of more than 30 combining marks it puts U+034F COMBINING GRAPHEME JOINER. What was read is
written at once, but for the last character, since a mark may follow it; with --line-buffered none
waits after a line feed. At a fault, what came before it is written, but for such a last character.

Status:
  0  all is written
  2  the command line is refused
  3  the input is refused: standard error says why, and at which byte
  4  a read or a write failed
  6  the input is longer than 2^64 - 1 bytes";

pub(crate) const CHECK: &str = "\
Reads UTF-8 from standard input, and writes one line to standard output: stream-safe, or the first
place that is not, as a character and a byte counted from 0. There convert would put U+034F.
With --form it says whether convert would leave the text as it is: the name of the form, or the
place of the first character that convert would change.

  nfstream check < FILE
  nfstream check --form nfc < FILE

Status:
  0  the text is stream-safe; with --form, and in that form
  1  it is not
  2  the command line is refused
  3  the input is refused before such a place: standard error says why, and at which byte
  4  a read or a write failed
  6  the input is longer than 2^64 - 1 bytes";

pub(crate) const MEASURE: &str = "\
Reads UTF-8 from standard input to its end, and writes a line for each count to standard output:
bytes, characters, non-starters, their longest run, U+034F that convert would put, and unassigned.

  nfstream measure < FILE

Status:
  0  counted
  2  the command line is refused
  3  the input is no UTF-8: standard error says at which byte
  4  a read or a write failed
  6  the input is longer than 2^64 - 1 bytes";

pub(crate) const TEST: &str = "\
Reads the file from standard input to its end, and writes to standard output how many rows pass,
and the first that fails.

  nfstream test < NormalizationTest.txt

Status:
  0  all pass
  1  a row fails, or a form changes a character that Part 1 does not list
  2  the command line is refused
  3  a line is malformed: standard error says which
  4  a read or a write failed
  5  memory ran out
  6  the file is longer than 67108864 bytes";
