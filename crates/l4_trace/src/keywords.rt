//! The table of keywords: the first word of each line, its step, and the reader and writer of what
//! follows.

/// The keyword of a delivery. It is no row of the table, since the words of a message are read into
/// a buffer.
pub(crate) const DELIVER: &[u8] = b"deliver";

/// The rows of the table. `$make` gets the rows with these variables, and makes an expression of
/// them.
macro_rules! by_keyword {
    ($make:ident($($argument:ident),*)) => {
        $make! {
            ($($argument),*)
            b"local" => Local(thread), of_thread, write_thread_line(thread);
            b"begin" => Begin(name), of_name, write_name_line(name);
            b"queue" => Queue(name), of_name, write_name_line(name);
            b"wait" => Wait(thread), of_thread, write_thread_line(thread);
            b"stimeout" => SendTimeout(name), of_name, write_name_line(name);
            b"rtimeout" => ReceiveTimeout(thread), of_thread, write_thread_line(thread);
            b"snobody" => SendNobody(name), of_name, write_name_line(name);
            b"rnobody" => ReceiveNobody(thread), of_thread, write_thread_line(thread);
            b"scancel" => SendCancel(name), of_name, write_name_line(name);
            b"rcancel" => ReceiveCancel(thread), of_thread, write_thread_line(thread);
            b"drop" => Drop(name), of_name, write_name_line(name);
            b"order" => Order { caller, target, what }, of_order,
                write_order(caller, target, what);
            b"obey" => Obey(thread), of_thread, write_thread_line(thread);
            b"tick" => Tick(tick), of_tick, write_tick(tick);
            b"retarget" => Retarget(name), of_name, write_name_line(name);
        }
    };
}

pub(crate) use by_keyword;
