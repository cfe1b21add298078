//! The texts of the help that say what each command reads and prints, with an example.

pub(crate) const DUE_TEXT: &str = "\
Standard input is due text, at most 16,777,216 bytes, as `due` prints it. Of a dealer the first two
lines are
  date YYYYMMDD
  dealer NAME QUOTES EXPOSURE TRADER ..
and then, in the order in which it happens,
  shown INVESTOR BOND SIDE QUANTITY DEADLINE TIME [GRID [LOW HIGH]]
                                 a request that the dealer is shown
  say TRADER TIME TYPE BODY      a message of the firm's own
  own TIME FRAME                 its bytes, with a vertical bar for each SOH
  hex TIME HEX                   its bytes, two hexadecimal digits each
  lifted N                       the dealer's quote N is lifted
  closed N KIND TIME             the dealer is told how its request N ended:
                                 1 hit, 3 expired, 4 cover, 5 done away, 6 passed
  drop LAST TIME                 a turn of the cancel of all quotes (298=4) of TIME
Of an investor the first lines are
  date YYYYMMDD
  investor NAME REQUESTS OPEN QUANTITY TRADER ..
  bond BOND GRID [LOW HIGH]      each bond of the venue
  dealer NAME                    each dealer of the venue, behind the bonds
and then `say`, `own`, `hex` and
  quoted N DEALER PRICE TIME [UNTIL]
                                 a dealer quotes on the investor's request N, until UNTIL
  gone N K TIME                  the quote QK is taken back
  declined N DEALER TIME         a dealer declines
  answered N ID REPLY TIME [K]   the hit of QK, or the pass, with the QuoteRespID (693) ID is
                                 answered: Awarded, Passed, or the name of a refusal (58)
  expired N TIME                 the request expires
One space divides the parts of a line. Empty lines and lines that begin with # are skipped.

  NAME, INVESTOR  1 to 8 capital letters and digits, the first a letter; not VENUE or CLOCK
  TRADER          in the firm's line 1 to 16 names, none twice
  QUOTES          1 to 4096, how many quotes the dealer may have accepted in the day
  EXPOSURE        1 to 1000000000000000, the greatest sum of its live quotes' quantities
  REQUESTS, OPEN  1 to 1024, how many requests it may have accepted in the day, and open at once
  BOND            12 capital letters and digits
  SIDE            1 the investor buys, 2 it sells
  QUANTITY        1 to 1000000000000
  GRID            32, 64, 128 or 256, the steps of a point that prices have; in `shown` 256 without
  LOW, HIGH       the lowest and the highest price of the bond; without them any price
  PRICE           a decimal number of points, a whole number of 256ths
  TIME, DEADLINE, UNTIL
                  HH:MM:SS or HH:MM:SS.sss
  TYPE            S a quote, Z a cancel, AG a decline, R a request, AJ a hit or a pass
  BODY            TAG=VALUE|TAG=VALUE|..; the whole frame has at most 4096 bytes
  N               the firm's own number of a quote or a request, from 1
  K               the number of a quote that the investor was shown, from 1; in `gone` 0 for none
  LAST            the own number of the last quote that the cancel of all means

Each message is printed as FIRM MSGSEQNUM TIME TYPE BODY, or with --frames as FIRM FRAME. No
arguments at all mean `alone`.

Example:
  date 20250314
  dealer DLR1 4 10000000 T1
  shown INV1 BONDA0000001 1 2000000 09:05:00 09:00:00
  say T1 09:00:10 S 117=a1|131=R1|48=BONDA0000001|22=4|133=99.50390625
prints
  DLR1 1 09:00:00.000 R 131=R1|146=1|55=[N/A]|48=BONDA0000001|22=4|54=1|38=2000000|126=20250314-09:05:00.000|453=1|448=INV1|447=D|452=13
  DLR1 2 09:00:10.000 AI 131=R1|117=a1|297=0";

pub(crate) const DAY: &str = "\
Standard input is a day of the venue, at most 16,777,216 bytes: a configuration in TOML, a line %%,
and in the order in which they happen the steps of the day, a line each:
  say FIRM TRADER TIME TYPE BODY    a message of a firm
  in FIRM TIME FRAME                its bytes, with a vertical bar for each SOH
  hex FIRM TIME HEX                 its bytes, two hexadecimal digits each
  piece FIRM TIME BYTES             its next bytes, with bars, too, in which messages may end
  turn ACTOR N                      a firm, or CLOCK, does its N oldest duties, 1 to 1000
  expire FIRM N TIME                the sweep of the room of an investor's request N
  clock TIME                        the sweep of every room
One space divides the parts of a line. Empty lines and lines that begin with # are skipped.

  TIME            HH:MM:SS or HH:MM:SS.sss
  TYPE            S a quote, Z a cancel, AG a decline, R a request, AJ a hit or a pass
  BODY            TAG=VALUE|TAG=VALUE|..; the whole frame has at most 4096 bytes
  N               1 to 9 digits

The configuration has
  version         1, 2 or 3
  date            \"YYYYMMDD\"
  [[bond]]        id, 12 capital letters and digits; from version 2 on also grid: 32, 64, 128 or 256,
                  the steps of a point that its prices have. In version 1 each bond has 256. In
                  version 3 it may have low and high, texts such as \"99.5\": the band of its prices
  [[dealer]]      name, traders; quotes, 1 to 4096, how many it may have accepted in the day;
                  exposure, 1 to 1000000000000000, the greatest sum of its live quotes' quantities
  [[investor]]    name, traders; requests and open, 1 to 1024, how many it may have accepted in the
                  day, and open at once; quantity, 1 to 1000000000000, the greatest of one request
A name has 1 to 8 capital letters and digits, the first a letter, and no firm is VENUE or CLOCK.
Each firm has 1 to 16 traders. There are at most 1024 bonds, 64 dealers and 64 investors, and in all
65536 quotes and 4096 requests.

Each message is printed as FIRM MSGSEQNUM TIME TYPE BODY, or with --frames as FIRM FRAME: those of
each dealer, in the order of the configuration, and then those of each investor.

With --live or --notes each step is followed by the turns that leave no duty, as `live` does them,
and a line `turn` is of no form. A line of steps at fault is told on standard error, as `line K:
form`, and skipped; the input has no limit but those of `live`.

Example:
  version = 2
  date = \"20250314\"
  [[bond]]
  id = \"BONDA0000001\"
  grid = 128
  [[dealer]]
  name = \"DLR1\"
  traders = [\"T1\"]
  quotes = 4
  exposure = 10000000
  [[investor]]
  name = \"INV1\"
  traders = [\"T8\"]
  requests = 3
  open = 2
  quantity = 5000000
  %%
  say INV1 T8 09:00:00 R 131=A|146=1|48=BONDA0000001|22=4|54=1|38=2000000|126=20250314-09:05:00|453=1|448=DLR1|447=D|452=35
  turn INV1 3
  say DLR1 T1 09:00:10 S 117=a1|131=R1|48=BONDA0000001|22=4|133=99.5
  turn DLR1 2
prints
  DLR1 1 09:00:00.000 R 131=R1|146=1|55=[N/A]|48=BONDA0000001|22=4|54=1|38=2000000|126=20250314-09:05:00.000|453=1|448=INV1|447=D|452=13
  DLR1 2 09:00:10.000 AI 131=R1|117=a1|297=0
  INV1 1 09:00:00.000 AI 131=A|297=0
  INV1 2 09:00:10.000 S 131=A|117=Q1|55=[N/A]|48=BONDA0000001|22=4|54=1|133=99.5|135=2000000|537=1|453=1|448=DLR1|447=D|452=35";

pub(crate) const THREADS: &str = "\
Standard input is a day of the venue, at most 16,777,216 bytes: a configuration in TOML, a line %%,
and lines of steps as the help of `replay` has them, but no `turn`. The lines of a firm with `say`,
`in`, `hex` and `piece` are its inbox in their order, and those with `expire` and `clock` the sweeps
of the clock.

The firms take their inboxes at the same time, each on a thread of its own, and each does its duties
as they come; the clock makes its sweeps on another. So what is printed may be another day on
another run, where firms race. It is printed as `replay` prints it.

With --woven the actions of all threads are put into one list of steps, in an order in which each
stands behind those that came before it, and the list is replayed. Where it sends every firm the
same messages, `woven N` is printed behind them, N the number of the steps.

A day whose record does not agree with what came is a fault of the venue: `day: Inbox`, `day: Told`,
`day: Sweep`, `day: Shown`, `day: Relayed` or `day: Answered`; one that is not woven is
`weave: Malformed`, `weave: Cycle` or `weave: Differs`.

Example: of the configuration and the first step in the help of `replay`, `day --woven` prints
  DLR1 1 09:00:00.000 R 131=R1|146=1|55=[N/A]|48=BONDA0000001|22=4|54=1|38=2000000|126=20250314-09:05:00.000|453=1|448=INV1|447=D|452=13
  INV1 1 09:00:00.000 AI 131=A|297=0
  woven 4";

pub(crate) const DUE_DAY: &str = "\
Standard input is a day of the venue, as the help of `replay` has it, which says what --live does.

What was due to FIRM is printed as due text, in the lines that the help of `alone` has: the date and
the firm's row, of an investor also the bonds and the dealers, and then, in the order in which it
happened, its own messages and what the venue has told it. From it `alone` makes the messages that
`replay` prints of FIRM.

Example: of the day in the help of `replay`, `due DLR1` prints
  date 20250314
  dealer DLR1 4 10000000 T1
  shown INV1 BONDA0000001 1 2000000 09:05:00.000 09:00:00.000 128
  own 09:00:10.000 8=FIXT.1.1|9=102|35=S|49=DLR1|56=VENUE|34=1|52=20250314-09:00:10.000|50=T1|117=a1|131=R1|48=BONDA0000001|22=4|133=99.5|10=183|
and `due --investor INV1`
  date 20250314
  investor INV1 3 2 5000000 T8
  bond BONDA0000001 128
  dealer DLR1
  own 09:00:00.000 8=FIXT.1.1|9=157|35=R|49=INV1|56=VENUE|34=1|52=20250314-09:00:00.000|50=T8|131=A|146=1|48=BONDA0000001|22=4|54=1|38=2000000|126=20250314-09:05:00|453=1|448=DLR1|447=D|452=35|10=238|
  quoted 1 DLR1 99.5 09:00:10.000";

pub(crate) const DUES_DAY: &str = "\
Standard input is a day of the venue, as the help of `replay` has it, which says what --live does.

What was due to each dealer is printed as `due` prints it, in the order of the configuration: each
dealer's text begins with its line `date`.

Example: of the day in the help of `replay`, which has one dealer, `dues` prints
  date 20250314
  dealer DLR1 4 10000000 T1
  shown INV1 BONDA0000001 1 2000000 09:05:00.000 09:00:00.000 128
  own 09:00:10.000 8=FIXT.1.1|9=102|35=S|49=DLR1|56=VENUE|34=1|52=20250314-09:00:10.000|50=T1|117=a1|131=R1|48=BONDA0000001|22=4|133=99.5|10=183|";

pub(crate) const DAYS: &str = "\
Standard input is two days of the venue, at most 16,777,216 bytes in all: a configuration, a line
%%, steps, a line %%, a configuration, a line %%, and steps, as the help of `replay` has them.

Three lines are printed:
  row equal        or row differs, by the date and the row of FIRM, and of an investor also by the
                   bonds with their grids and bands and the names of the dealers
  due equal        or due differs at K, by what is due to it
  messages equal   or messages differ at K, by what it is sent
K is the first position, from 1, at which one list has something else, or has ended. Where the first
two lines say `equal`, so does the third.

With --live both days are taken as `live` takes them, as the help of `replay` says.

Example: of the day in the help of `replay`, a line %%, and the same day with 131=B for 131=A,
`compare DLR1` prints
  row equal
  due equal
  messages equal
and `compare --investor INV1`
  row equal
  due differs at 1
  messages differ at 1";

pub(crate) const BLOTTER_DAY: &str = "\
Standard input is a day of the venue, as the help of `replay` has it, which says what --live does.

A line is printed for each of a dealer's accepted quotes, in order: its number, the moment of its
acceptance, the trader, R and the request's number, the bond, B where the investor buys or S where
it sells, the quantity, the price in 32nds, and the state: live, withdrawn, replaced, lifted or
ended. In a price a third digit behind the dash counts eighths of a 32nd, and + is four of them.

Of an investor a line is printed for each accepted request: its number and moment, the trader, the
bond, B or S, the quantity, and the state: open, passed, expired, or won, the dealer and the price.

Example: of the day in the help of `replay`, `blotter DLR1` prints
     1 09:00:10.000 T1       R1    BONDA0000001 B       2000000   99-16 live
and `blotter INV1`
     1 09:00:00.000 T8       BONDA0000001 B       2000000 open";

pub(crate) const LIVE_DAY: &str = "\
Standard input is a day of the venue as the help of `replay` has it, but without lines `turn`, and
it is answered line by line: the step of a line is done, then all duties that it left, in order, and
the messages that are sent for these are printed, in the order in which they are sent, before more
is read. Nothing is printed of a line for which nothing is sent.

A line of steps at fault is told on standard error, as `line K: form`, and changes nothing: the day
goes on. A fault of the configuration ends it. No line has more than 16,777,216 bytes.

With --marks a further line is printed behind the messages of each line of steps, in one write with
them: `done K`, and behind it the earliest deadline of a request that has not ended, if there is
one; or `fault K NAME`. K counts all lines from 1.

The status is 0 at the end of the input, 1 for a fault that ends the day before, and 2 for wrong
arguments.

Example: of the day in the help of `replay`, without its lines `turn`, `live --marks` prints
  INV1 1 09:00:00.000 AI 131=A|297=0
  DLR1 1 09:00:00.000 R 131=R1|146=1|55=[N/A]|48=BONDA0000001|22=4|54=1|38=2000000|126=20250314-09:05:00.000|453=1|448=INV1|447=D|452=13
  done 18 09:05:00.000
  DLR1 2 09:00:10.000 AI 131=R1|117=a1|297=0
  INV1 2 09:00:10.000 S 131=A|117=Q1|55=[N/A]|48=BONDA0000001|22=4|54=1|133=99.5|135=2000000|537=1|453=1|448=DLR1|447=D|452=35
  done 19 09:05:00.000";
