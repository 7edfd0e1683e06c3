/// What `--version` prints.
pub const VERSION: &str = "pushpin 0.1.0\n";

/// What `--help` prints.
pub const HELP: &str =
    "pushpin: a realtime reverse proxy with GRIP holds\n\nusage: pushpin serve ROUTES [--workers N] [--sessions N] [--client PORT]\n               [--publish PORT] [--key TEXT]\n       pushpin replay FILE\n       pushpin --help | --version\n\nserve ROUTES passes the requests of clients on to the origins of a routes file,\nand takes items from publishers. It ends when it has served its number of\nsessions, and then writes a line for each.\n  --workers N      threads, 1 to 16 (4)\n  --sessions N     sessions, 1 to 100000 (100000)\n  --client PORT    the port of clients, on all addresses (7999)\n  --publish PORT   the port of publishers, on 127.0.0.1 (5561)\n  --key TEXT       signs requests to origins (Grip-Sig), 1 to 255 bytes\n\nreplay FILE steps the events of a script, one a line, and writes the reply to\neach and then the log of each hold.\n\nexit status: 0 done, 2 faulty command line, 3 file not read or too long,\n4 bad line, 5 output not written, 6 port not opened, 7 out of memory\n";
