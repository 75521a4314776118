pub(crate) const USAGE: &str = "\
usage: selplan SCRIPT
       selplan < SCRIPT
       selplan --help
";

pub(crate) const HELP: &str = "\
selplan SCRIPT carries out a script, call by call, on one plan; without SCRIPT it reads the script from standard input.

A script has one call a line, its words parted by blanks. Empty lines, and lines from # on, are passed over.
Numbers are decimal, or hexadecimal behind 0x.

  plan N PIN PIN ..       a new plan of N nodes with this order of the pins; a former plan is let go
  tables TREE WORK        how long the tree table and the work are that later calls are handed; if not said,
                          20480 records and what the plan asks for, 4 x (pins + 1) x (N + 2) numbers
  draw LINE [inverted] [flipped MASK] [mounted PINS BASE FILL] KIND FILE
                          the map in a file on a line, with these layers over it; KIND is bits, settings
                          or ranges, FILL the code of an end, and settings are not inverted
  join HOW A B LINE       what a joining makes of lines A and B; HOW is both, either, differ or overlay
  strap A PIN low LINE    line A with a pin set low (or high), on another line
  erase LINE              empties a line
  read LINE ADDRESS       the code of a line at an address
  same A B                whether two lines have one selection
  used                    the number of nodes in use
  count LINE              the number of nodes of one line
  issue                   from an open plan to an issued one, which can be listed
  reopen                  and back
  list                    the listing of the plan in hex digits, 32 bytes a line
  list FILE               writes the listing into a file

Each call is answered by a line:

  OK                           done
  REFUSED number layer place   refused, with nothing altered
  CODE c                       of read
  SAME yes, SAME no            of same
  USED u                       of used
  LINE l NODES k               of count
  LISTING b BYTES              of list; the hex digits follow
  ERROR line i: what is wrong  the line is no call, the plan has no place for it, or a file cannot be
                               read or written; nothing is altered, and the script goes on

selplan ends with status 0, refusals included, and with an error status after any ERROR.

Example:

  plan 16 0 1               # two pins, pin 0 asked first
  draw 0 bits two-pins.swl
  count 0
  issue
  list

answers OK, OK, LINE 0 NODES 3, OK and LISTING 127 BYTES, with the listing behind it.
";
