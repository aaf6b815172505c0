//! Metrics, and the lines about lost packets in reports.

use crate::equality::assert_equal;
use crate::sessions::{ADD, CALLER, SESSION, Session, play};
use mg_ports::Peer;
use std::test::Fail;

const STRANGER: Peer = Peer {
    address: [127, 0, 0, 9],
    port: 40000,
};

/// A session with a report every second. Only 127.0.0.1 may send messages, and callers must use symmetric RTP.
const WATCHED: Session<'static> = Session {
    controllers: &[[127, 0, 0, 1]],
    symmetric_rtp: true,
    seconds: 1,
    ..SESSION
};

/// The message that creates the caller's termination, and a message and a packet from a stranger.
const WAITING: &[(usize, Peer, &[u8])] = &[
    (0, CALLER, ADD),
    (0, STRANGER, b"x"),
    (1, STRANGER, b"x"),
];

/// A session and the expected output of its monitors.
struct Case<'a> {
    name: &'a str,
    session: Session<'a>,
    /// The number of times that all metrics are written.
    texts: usize,
    /// Some lines of the last metrics text, and the end of that text.
    metrics: &'a [&'a [u8]],
    end: &'a [u8],
    /// Some lines of the reports.
    reports: &'a [&'a [u8]],
}

const CASES: &[Case<'static>] = &[
    Case {
        name: "no metrics before five seconds have passed",
        session: Session {
            step: Some(10_000),
            waiting: WAITING,
            packets: &[1, 2, 4],
            lines: &[(1, b"poll\n"), (249, b"tick\n")],
            ..WATCHED
        },
        texts: 0,
        metrics: &[],
        end: b"",
        reports: &[],
    },
    Case {
        name: "metrics every five seconds",
        session: Session {
            step: Some(10_000),
            waiting: WAITING,
            packets: &[1, 2, 4],
            lines: &[(1, b"poll\n"), (500, b"tick\n")],
            ..WATCHED
        },
        texts: 2,
        metrics: &[
            b"# TYPE lobbysorrel_ticks_total counter",
            b"# TYPE lobbysorrel_tick_delay_seconds histogram",
            b"# TYPE lobbysorrel_port_silence_seconds gauge",
            b"lobbysorrel_info{gateway=\"127.0.0.1:2944\",version=\"1.2.3\"} 1",
            b"lobbysorrel_ticks_total{gateway=\"127.0.0.1:2944\"} 500",
            b"lobbysorrel_contexts{gateway=\"127.0.0.1:2944\"} 1",
            b"lobbysorrel_terminations{gateway=\"127.0.0.1:2944\"} 1",
            b"lobbysorrel_slots{gateway=\"127.0.0.1:2944\"} 2",
            b"lobbysorrel_callers_sending{gateway=\"127.0.0.1:2944\"} 0",
            b"lobbysorrel_control_messages_total{gateway=\"127.0.0.1:2944\"} 1",
            b"lobbysorrel_control_messages_unread_total{gateway=\"127.0.0.1:2944\"} 0",
            b"lobbysorrel_rtp_packets_total{gateway=\"127.0.0.1:2944\",result=\"started\"} 1",
            b"lobbysorrel_rtp_packets_total{gateway=\"127.0.0.1:2944\",result=\"placed\"} 2",
            b"lobbysorrel_rtp_packets_total{gateway=\"127.0.0.1:2944\",result=\"duplicate\"} 0",
            b"lobbysorrel_rtp_packets_total{gateway=\"127.0.0.1:2944\",result=\"not_rtp\"} 0",
            b"lobbysorrel_datagrams_sent_total{gateway=\"127.0.0.1:2944\"} 501",
            b"lobbysorrel_datagrams_unsent_total{gateway=\"127.0.0.1:2944\",cause=\"late\"} 0",
            b"lobbysorrel_receives_failed_total{gateway=\"127.0.0.1:2944\"} 0",
            b"lobbysorrel_strangers_total{gateway=\"127.0.0.1:2944\",socket=\"control\"} 1",
            b"lobbysorrel_strangers_total{gateway=\"127.0.0.1:2944\",socket=\"media\"} 1",
            b"lobbysorrel_journal_lacking_ticks{gateway=\"127.0.0.1:2944\"} 0",
            b"lobbysorrel_journal_appends_failed_total{gateway=\"127.0.0.1:2944\"} 0",
            b"lobbysorrel_journal_renewals_failed_total{gateway=\"127.0.0.1:2944\"} 0",
            b"lobbysorrel_control_messages_unjournaled_total{gateway=\"127.0.0.1:2944\"} 0",
            b"lobbysorrel_frames_concealed_total{gateway=\"127.0.0.1:2944\"} 1",
            b"lobbysorrel_port_termination{gateway=\"127.0.0.1:2944\",port=\"30000\"} 1",
            b"lobbysorrel_port_packets_total{gateway=\"127.0.0.1:2944\",port=\"30000\"} 3",
            b"lobbysorrel_port_packets_lost_total{gateway=\"127.0.0.1:2944\",port=\"30000\"} 0",
            b"lobbysorrel_port_frames_concealed_total{gateway=\"127.0.0.1:2944\",port=\"30000\"} 1",
            b"lobbysorrel_port_silence_seconds{gateway=\"127.0.0.1:2944\",port=\"30000\"} 10.000000",
            b"lobbysorrel_tick_delay_seconds_count{gateway=\"127.0.0.1:2944\"} 500",
            b"lobbysorrel_tick_delay_seconds_bucket{gateway=\"127.0.0.1:2944\",le=\"+Inf\"} 500",
        ],
        end: b" 10.000000\n",
        reports: &[],
    },
    Case {
        // The poll of tick k begins at 22k - 11 ms, and the tick ends 11 ms later.
        name: "how late ticks begin",
        session: Session {
            step: Some(11_000),
            lines: &[(250, b"poll\ntick\n")],
            ..WATCHED
        },
        texts: 1,
        metrics: &[
            b"lobbysorrel_tick_delay_seconds_bucket{gateway=\"127.0.0.1:2944\",le=\"0.0005\"} 5",
            b"lobbysorrel_tick_delay_seconds_bucket{gateway=\"127.0.0.1:2944\",le=\"0.001\"} 6",
            b"lobbysorrel_tick_delay_seconds_bucket{gateway=\"127.0.0.1:2944\",le=\"0.002\"} 6",
            b"lobbysorrel_tick_delay_seconds_bucket{gateway=\"127.0.0.1:2944\",le=\"0.005\"} 8",
            b"lobbysorrel_tick_delay_seconds_bucket{gateway=\"127.0.0.1:2944\",le=\"0.01\"} 10",
            b"lobbysorrel_tick_delay_seconds_bucket{gateway=\"127.0.0.1:2944\",le=\"0.02\"} 15",
            b"lobbysorrel_tick_delay_seconds_bucket{gateway=\"127.0.0.1:2944\",le=\"0.05\"} 30",
            b"lobbysorrel_tick_delay_seconds_bucket{gateway=\"127.0.0.1:2944\",le=\"0.1\"} 55",
            b"lobbysorrel_tick_delay_seconds_bucket{gateway=\"127.0.0.1:2944\",le=\"0.5\"} 250",
            b"lobbysorrel_tick_delay_seconds_bucket{gateway=\"127.0.0.1:2944\",le=\"+Inf\"} 250",
            b"lobbysorrel_tick_delay_seconds_sum{gateway=\"127.0.0.1:2944\"} 60.025000",
            b"lobbysorrel_step_seconds_max{gateway=\"127.0.0.1:2944\"} 0.011000",
        ],
        end: b"\n",
        reports: &[],
    },
    Case {
        name: "metrics without a clock",
        session: Session {
            step: None,
            lines: &[(250, b"poll\ntick\n")],
            ..WATCHED
        },
        texts: 1,
        metrics: &[
            b"lobbysorrel_ticks_total{gateway=\"127.0.0.1:2944\"} 250",
            b"lobbysorrel_tick_delay_seconds_count{gateway=\"127.0.0.1:2944\"} 0",
            b"lobbysorrel_step_seconds_max{gateway=\"127.0.0.1:2944\"} 0.000000",
        ],
        end: b"\n",
        reports: &[],
    },
    Case {
        name: "a port that lost a frame",
        session: Session {
            step: Some(0),
            waiting: WAITING,
            packets: &[1, 2, 4],
            lines: &[(1, b"poll\n"), (100, b"tick\n")],
            ..WATCHED
        },
        texts: 0,
        metrics: &[],
        end: b"",
        reports: &[
            b"trouble port=30000 termination=1 packets=3 lost=0 concealed=1 started=1 pushed=0 again=0 late=0 \
            dropped=0,0,0,0,0,0 strangers=1 silent=0",
        ],
    },
    Case {
        name: "a port that lost packets, and then was silent",
        session: Session {
            step: Some(0),
            waiting: WAITING,
            packets: &[1, 2, 200],
            lines: &[(1, b"poll\n"), (100, b"tick\n")],
            ..WATCHED
        },
        texts: 0,
        metrics: &[],
        end: b"",
        reports: &[
            b"trouble port=30000 termination=1 packets=3 lost=134 concealed=0 started=1 pushed=1 again=0 late=0 \
            dropped=0,0,0,0,0,0 strangers=1 silent=0",
            b"trouble port=30000 termination=1 packets=0 lost=0 concealed=0 started=0 pushed=0 again=0 late=0 \
            dropped=0,0,0,0,0,0 strangers=0 silent=1",
        ],
    },
];

/// Returns the first of `lines` that the text lacks, or `None` if it has all of them.
fn first_missing<'a>(text: &[u8], lines: &'a [&'a [u8]]) -> Option<&'a [u8]> {
    for line in lines {
        if !text.split(|b| *b == b'\n').any(|found| found == *line) {
            return Some(*line);
        }
    }
    None
}

#[test]
fn monitors_write_what_happens(rt: HostRuntime) -> Result<(), Fail> {
    for case in CASES {
        let seen = play(rt.alloc(), &case.session)?.seen;
        let metrics = seen.metrics.as_slice();
        let missing = [
            first_missing(metrics, case.metrics),
            first_missing(seen.reports.as_slice(), case.reports),
        ];
        assert_equal(
            &rt,
            (case.name, seen.texts, missing, metrics.ends_with(case.end)),
            (case.name, case.texts, [None, None], true),
        );
    }
    Ok(())
}
