//! What the program says of itself.

pub const VERSION: &str = "bitcaskd 0.1.0\n";

pub const HELP: &str = "\
bitcaskd keeps keys and values in a folder, in files that are only appended to.

Usage:
  bitcaskd pipe DIR    answers the requests on standard input, on standard output
  bitcaskd fill DIR N  puts N pairs that are made up (0 to 10000000), to try the store
  bitcaskd list DIR    prints the pairs that are live as FOLD does, sorted by their keys
  bitcaskd check DIR   reports what the data files in DIR hold
  bitcaskd drill       runs the script on standard input over a store in memory
  bitcaskd --help      prints this text
  bitcaskd --version   prints the version

DIR is a folder that is there; what earlier runs put is kept. One process at a time has it. Its file
bitcask.toml, where there is one, has the settings.

'fill' puts each number from 0 to N - 1 under k and the number modulo 1000, and syncs. It prints
FILLED, N, the keys of the store, and the bytes that it appended. A fill and an opening that take
longer than a second show how far they have come on standard error, where that is a terminal.

'drill' tries what calls that fail, a power failure and several callers do. It touches no file. The
lines of a script are in docs/DRILL.md of the sources.

Requests. Numbers are decimal without leading zeros, and each line ends in a line feed.
  PUT k v    then k bytes of key (1 to 65535), v bytes of value (0 to 16777216) and a line feed.
             The reply is OK and the number of the write.
  GET k      then k bytes of key and a line feed. The reply is VALUE and the number of bytes, then
             the bytes and a line feed; or NONE.
  DEL k      then k bytes of key and a line feed. The reply is OK and the number of the write; or
             NONE, where the last write of the key is no PUT.
  FOLD       lists all pairs, in any order. For each the reply has PAIR k v, then k bytes of key, v
             bytes of value and a line feed; and at the end END and the number of pairs.
  KEYS       lists all keys: KEY k, then k bytes of key and a line feed; and END and their number.
  SYNC       makes all writes so far survive a power failure. The reply is SYNCED and the number of
             the last write.
  STAT       The reply is STAT and four numbers: of keys, of data files, of the bytes in these
             files, and of the bytes that are the newest records of keys.
  QUIT       ends the session. The reply is BYE.

Replies to a request that was refused; the session goes on. They stand in the place of END, too.
  MEMORY     an allocation was refused
  DISK       a file could not be written or opened
  READ       a file could not be read
  DAMAGED file at kept found
             the record at this place of this file isn't the one that was written: the checksum
             that was kept, and the one that was found
  FULL seq   the last number of a write is given out. FULL files: the last number of a file is
The last line is SYNTAX and an offset where no request stands at this offset of the input.

All writes are synced as the run ends, whatever ends it.

The report of 'check' has, for each data file in order of number, FILE and its number, its length,
the bytes of its whole records, and the bytes of those that are the newest records of keys; TORN,
its number, and where and how many bytes more than records it has, if it has any; and HINT, its
number, and GOOD or what is wrong with its hint, if it has one. ODD names a list of a merge that
can't be read. The last line is CHECKED, the number of the data files, and of those that are torn.

Exit status, with its word on standard error:
   0             the input was read to its end or to QUIT, or the work is done
   1  memory     an allocation was refused
   2  words      the words are none of the above
   3  directory  DIR or its lock file can't be opened. Behind the word stands the reason: 'not
                 found', 'not a directory', 'permission denied', 'read-only file system', 'too
                 many open files', 'the lock file is not a regular file', or 'system error' and
                 its number
   3  lock       another process has DIR
   3  disk       a file of DIR could not be read or written while the store was opened, in a command
                 other than pipe, or at the last sync, or is not a regular file
   4  source     standard input could not be read
   5  sink       standard output could not be written
   6  syntax     the input has something that is no request or line of a drill, or ends within one
   7  settings   bitcask.toml doesn't say settings
   8  damaged    list met a record that isn't the one that was written; its line was printed
   9  full       fill met the last number of a write or of a file; its line was printed
  10  long       the input has more than 1099511627776 bytes
";
