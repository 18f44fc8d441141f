//! Connections with calls: what they are given, and what comes of them.

use sx_book::{ConnEnd, Full};

/// More bytes than any connection here has.
pub const BUDGET: u64 = 1_099_511_627_776;

/// A connection to an office without shares, at 2022-01-01T00:00:00Z, signed for the account `acct` under the key
/// `key`: what it is given, and what comes of it.
pub struct Row {
    pub limit: u32,
    pub budget: u64,
    pub input: &'static str,
    /// How many bytes a read gives.
    pub chunk: usize,
    pub out: &'static str,
    pub end: ConnEnd,
    pub taken: u64,
    pub asked: u64,
    pub full: Option<Full>,
    pub entries: usize,
}

/// The connections.
pub const ROWS: [Row; 10] = [
    // A file is made, written and read, by requests one behind another.
    Row {
        limit: 10,
        budget: BUDGET,
        input: "PUT /data?restype=share HTTP/1.1\r\nx-ms-date: Sat, 01 Jan 2022 00:00:00 GMT\r\nx-ms-v\
             ersion: 2020-10-02\r\nContent-Length: 0\r\nAuthorization: SharedKey acct:Hm3iDpk0XpE8Q\
             z1X1SM2zDr3qhyy6hF8k+ll4QtJa5I=\r\n\r\nPUT /data/a.txt HTTP/1.1\r\nx-ms-date: Sat, 01 \
             Jan 2022 00:00:00 GMT\r\nx-ms-version: 2020-10-02\r\nContent-Length: 0\r\nx-ms-type: f\
             ile\r\nx-ms-content-length: 4\r\nx-ms-file-permission: inherit\r\nx-ms-file-attributes\
             : none\r\nx-ms-file-creation-time: now\r\nx-ms-file-last-write-time: now\r\nAuthorizat\
             ion: SharedKey acct:vImSkc2+95A+6u0slTxIpTv4RehAHrjrN9pzcEi6Kpc=\r\n\r\nPUT /data/a.tx\
             t?comp=range HTTP/1.1\r\nx-ms-date: Sat, 01 Jan 2022 00:00:00 GMT\r\nx-ms-version: 202\
             0-10-02\r\nContent-Length: 4\r\nx-ms-range: bytes=0-3\r\nx-ms-write: update\r\nAuthori\
             zation: SharedKey acct:gYyI//hIlhaFaBwYSsrGmXWZNdv+Q/+3TfCKgDokTfw=\r\n\r\nold!GET /da\
             ta/a.txt HTTP/1.1\r\nx-ms-date: Sat, 01 Jan 2022 00:00:00 GMT\r\nx-ms-version: 2020-10\
             -02\r\nAuthorization: SharedKey acct:AMjhWUQzLFnHM6YkesIotWae2N/N3HbGk/zPw9xFPqg=\r\n\
             \r\n",
        chunk: 4_096,
        out: "HTTP/1.1 201 Created\r\nx-ms-request-id: 00000000-0000-0000-0000-000000000001\r\nx-ms-\
             version: 2020-10-02\r\nDate: Sat, 01 Jan 2022 00:00:00 GMT\r\nLast-Modified: Sat, 01 J\
             an 2022 00:00:00 GMT\r\nETag: \"0x0000000000000001\"\r\nContent-Length: 0\r\n\r\nHTTP/\
             1.1 201 Created\r\nx-ms-request-id: 00000000-0000-0000-0000-000000000002\r\nx-ms-versi\
             on: 2020-10-02\r\nDate: Sat, 01 Jan 2022 00:00:00 GMT\r\nLast-Modified: Sat, 01 Jan 20\
             22 00:00:00 GMT\r\nETag: \"0x0000000000000002\"\r\nx-ms-file-attributes: None\r\nx-ms-\
             file-creation-time: 2022-01-01T00:00:00.0000000Z\r\nx-ms-file-last-write-time: 2022-01\
             -01T00:00:00.0000000Z\r\nx-ms-file-change-time: 2022-01-01T00:00:00.0000000Z\r\nx-ms-f\
             ile-id: 2\r\nx-ms-file-parent-id: 1\r\nContent-Length: 0\r\n\r\nHTTP/1.1 201 Created\r\
             \nx-ms-request-id: 00000000-0000-0000-0000-000000000003\r\nx-ms-version: 2020-10-02\r\
             \nDate: Sat, 01 Jan 2022 00:00:00 GMT\r\nLast-Modified: Sat, 01 Jan 2022 00:00:00 GMT\
             \r\nETag: \"0x0000000000000003\"\r\nContent-Length: 0\r\n\r\nHTTP/1.1 200 OK\r\nx-ms-r\
             equest-id: 00000000-0000-0000-0000-000000000004\r\nx-ms-version: 2020-10-02\r\nDate: S\
             at, 01 Jan 2022 00:00:00 GMT\r\nLast-Modified: Sat, 01 Jan 2022 00:00:00 GMT\r\nETag: \
             \"0x0000000000000003\"\r\nContent-Type: application/octet-stream\r\nAccept-Ranges: byt\
             es\r\nx-ms-type: File\r\nx-ms-file-attributes: None\r\nx-ms-file-creation-time: 2022-0\
             1-01T00:00:00.0000000Z\r\nx-ms-file-last-write-time: 2022-01-01T00:00:00.0000000Z\r\nx\
             -ms-file-change-time: 2022-01-01T00:00:00.0000000Z\r\nx-ms-file-id: 2\r\nx-ms-file-par\
             ent-id: 1\r\nx-ms-lease-status: unlocked\r\nx-ms-lease-state: available\r\nContent-Len\
             gth: 4\r\n\r\nold!",
        end: ConnEnd::Ended,
        taken: 973,
        asked: 4,
        full: None,
        entries: 4,
    },
    // The last one closes the connection, and what stands behind it is not taken.
    Row {
        limit: 10,
        budget: BUDGET,
        input: "PUT /data?restype=share HTTP/1.1\r\nx-ms-date: Sat, 01 Jan 2022 00:00:00 GMT\r\nx-ms-v\
             ersion: 2020-10-02\r\nContent-Length: 0\r\nAuthorization: SharedKey acct:Hm3iDpk0XpE8Q\
             z1X1SM2zDr3qhyy6hF8k+ll4QtJa5I=\r\n\r\nPUT /data/a.txt HTTP/1.1\r\nx-ms-date: Sat, 01 \
             Jan 2022 00:00:00 GMT\r\nx-ms-version: 2020-10-02\r\nContent-Length: 0\r\nx-ms-type: f\
             ile\r\nx-ms-content-length: 4\r\nx-ms-file-permission: inherit\r\nx-ms-file-attributes\
             : none\r\nx-ms-file-creation-time: now\r\nx-ms-file-last-write-time: now\r\nAuthorizat\
             ion: SharedKey acct:vImSkc2+95A+6u0slTxIpTv4RehAHrjrN9pzcEi6Kpc=\r\n\r\nPUT /data/a.tx\
             t?comp=range HTTP/1.1\r\nx-ms-date: Sat, 01 Jan 2022 00:00:00 GMT\r\nx-ms-version: 202\
             0-10-02\r\nContent-Length: 4\r\nx-ms-range: bytes=0-3\r\nx-ms-write: update\r\nAuthori\
             zation: SharedKey acct:gYyI//hIlhaFaBwYSsrGmXWZNdv+Q/+3TfCKgDokTfw=\r\n\r\nold!GET /da\
             ta/a.txt HTTP/1.1\r\nx-ms-date: Sat, 01 Jan 2022 00:00:00 GMT\r\nx-ms-version: 2020-10\
             -02\r\nConnection: keep-alive, Close\r\nAuthorization: SharedKey acct:AMjhWUQzLFnHM6Yk\
             esIotWae2N/N3HbGk/zPw9xFPqg=\r\n\r\nGET /data/a.txt HTTP/1.1\r\nx-ms-date: Sat, 01 Jan \
             2022 00:00:00 GMT\r\nx-ms-version: 2020-10-02\r\nAuthorization: SharedKey acct:AMjhWUQ\
             zLFnHM6YkesIotWae2N/N3HbGk/zPw9xFPqg=\r\n\r\n",
        chunk: 4_096,
        out: "HTTP/1.1 201 Created\r\nx-ms-request-id: 00000000-0000-0000-0000-000000000001\r\nx-ms-\
             version: 2020-10-02\r\nDate: Sat, 01 Jan 2022 00:00:00 GMT\r\nLast-Modified: Sat, 01 J\
             an 2022 00:00:00 GMT\r\nETag: \"0x0000000000000001\"\r\nContent-Length: 0\r\n\r\nHTTP/\
             1.1 201 Created\r\nx-ms-request-id: 00000000-0000-0000-0000-000000000002\r\nx-ms-versi\
             on: 2020-10-02\r\nDate: Sat, 01 Jan 2022 00:00:00 GMT\r\nLast-Modified: Sat, 01 Jan 20\
             22 00:00:00 GMT\r\nETag: \"0x0000000000000002\"\r\nx-ms-file-attributes: None\r\nx-ms-\
             file-creation-time: 2022-01-01T00:00:00.0000000Z\r\nx-ms-file-last-write-time: 2022-01\
             -01T00:00:00.0000000Z\r\nx-ms-file-change-time: 2022-01-01T00:00:00.0000000Z\r\nx-ms-f\
             ile-id: 2\r\nx-ms-file-parent-id: 1\r\nContent-Length: 0\r\n\r\nHTTP/1.1 201 Created\r\
             \nx-ms-request-id: 00000000-0000-0000-0000-000000000003\r\nx-ms-version: 2020-10-02\r\
             \nDate: Sat, 01 Jan 2022 00:00:00 GMT\r\nLast-Modified: Sat, 01 Jan 2022 00:00:00 GMT\
             \r\nETag: \"0x0000000000000003\"\r\nContent-Length: 0\r\n\r\nHTTP/1.1 200 OK\r\nx-ms-r\
             equest-id: 00000000-0000-0000-0000-000000000004\r\nx-ms-version: 2020-10-02\r\nDate: S\
             at, 01 Jan 2022 00:00:00 GMT\r\nLast-Modified: Sat, 01 Jan 2022 00:00:00 GMT\r\nETag: \
             \"0x0000000000000003\"\r\nContent-Type: application/octet-stream\r\nAccept-Ranges: byt\
             es\r\nx-ms-type: File\r\nx-ms-file-attributes: None\r\nx-ms-file-creation-time: 2022-0\
             1-01T00:00:00.0000000Z\r\nx-ms-file-last-write-time: 2022-01-01T00:00:00.0000000Z\r\nx\
             -ms-file-change-time: 2022-01-01T00:00:00.0000000Z\r\nx-ms-file-id: 2\r\nx-ms-file-par\
             ent-id: 1\r\nx-ms-lease-status: unlocked\r\nx-ms-lease-state: available\r\nContent-Len\
             gth: 4\r\nConnection: close\r\n\r\nold!",
        end: ConnEnd::Closed { at: None },
        taken: 1_004,
        asked: 4,
        full: None,
        entries: 4,
    },
    // HTTP/1.0 closes it, too.
    Row {
        limit: 10,
        budget: BUDGET,
        input: "GET /?comp=list HTTP/1.0\r\nx-ms-date: Sat, 01 Jan 2022 00:00:00 GMT\r\nx-ms-version: \
             2020-10-02\r\nAuthorization: SharedKey acct:DGRnMuofoF/9eYEegXv1fxmhppeo80ZGcoTLZf2gQ9\
             g=\r\n\r\nGET /data/a.txt HTTP/1.1\r\nx-ms-date: Sat, 01 Jan 2022 00:00:00 GMT\r\nx-ms\
             -version: 2020-10-02\r\nAuthorization: SharedKey acct:AMjhWUQzLFnHM6YkesIotWae2N/N3HbG\
             k/zPw9xFPqg=\r\n\r\n",
        chunk: 4_096,
        out: "HTTP/1.1 200 OK\r\nx-ms-request-id: 00000000-0000-0000-0000-000000000001\r\nx-ms-versi\
             on: 2020-10-02\r\nDate: Sat, 01 Jan 2022 00:00:00 GMT\r\nContent-Type: application/xml\
             \r\nContent-Length: 184\r\nConnection: close\r\n\r\n<?xml version=\"1.0\" encoding=\"u\
             tf-8\"?><EnumerationResults><Prefix></Prefix><Marker></Marker><MaxResults>5000</MaxRes\
             ults><Shares></Shares><NextMarker></NextMarker></EnumerationResults>",
        end: ConnEnd::Closed { at: None },
        taken: 172,
        asked: 1,
        full: None,
        entries: 1,
    },
    // A request without a signature has no place.
    Row {
        limit: 10,
        budget: BUDGET,
        input: "GET /data/a.txt HTTP/1.1\r\nx-ms-date: Sat, 01 Jan 2022 00:00:00 GMT\r\nx-ms-version: \
             2020-10-02\r\n\r\nPUT /data?restype=share HTTP/1.1\r\nx-ms-date: Sat, 01 Jan 2022 00:0\
             0:00 GMT\r\nx-ms-version: 2020-10-02\r\nContent-Length: 0\r\nAuthorization: SharedKey \
             acct:Hm3iDpk0XpE8Qz1X1SM2zDr3qhyy6hF8k+ll4QtJa5I=\r\n\r\n",
        chunk: 4_096,
        out: "HTTP/1.1 403 Forbidden\r\nx-ms-request-id: 00000000-0000-0000-0000-000000000000\r\nx-m\
             s-version: 2020-10-02\r\nDate: Sat, 01 Jan 2022 00:00:00 GMT\r\nx-ms-error-code: Authe\
             nticationFailed\r\nContent-Type: application/xml\r\nContent-Length: 119\r\n\r\n<?xml v\
             ersion=\"1.0\" encoding=\"utf-8\"?><Error><Code>AuthenticationFailed</Code><Message>au\
             th no-header</Message></Error>HTTP/1.1 201 Created\r\nx-ms-request-id: 00000000-0000-0\
             000-0000-000000000001\r\nx-ms-version: 2020-10-02\r\nDate: Sat, 01 Jan 2022 00:00:00 G\
             MT\r\nLast-Modified: Sat, 01 Jan 2022 00:00:00 GMT\r\nETag: \"0x0000000000000001\"\r\n\
             Content-Length: 0\r\n\r\n",
        end: ConnEnd::Ended,
        taken: 295,
        asked: 1,
        full: None,
        entries: 1,
    },
    // No share of that name.
    Row {
        limit: 10,
        budget: BUDGET,
        input: "GET /data/a.txt HTTP/1.1\r\nx-ms-date: Sat, 01 Jan 2022 00:00:00 GMT\r\nx-ms-version: \
             2020-10-02\r\nAuthorization: SharedKey acct:AMjhWUQzLFnHM6YkesIotWae2N/N3HbGk/zPw9xFPq\
             g=\r\n\r\n",
        chunk: 4_096,
        out: "HTTP/1.1 404 Not Found\r\nx-ms-request-id: 00000000-0000-0000-0000-000000000001\r\nx-m\
             s-version: 2020-10-02\r\nDate: Sat, 01 Jan 2022 00:00:00 GMT\r\nx-ms-error-code: Share\
             NotFound\r\nContent-Type: application/xml\r\nContent-Length: 106\r\n\r\n<?xml version=\
             \"1.0\" encoding=\"utf-8\"?><Error><Code>ShareNotFound</Code><Message>no share</Messag\
             e></Error>",
        end: ConnEnd::Ended,
        taken: 172,
        asked: 1,
        full: None,
        entries: 1,
    },
    // A head that is none, behind a request.
    Row {
        limit: 10,
        budget: BUDGET,
        input: "PUT /data?restype=share HTTP/1.1\r\nx-ms-date: Sat, 01 Jan 2022 00:00:00 GMT\r\nx-ms-v\
             ersion: 2020-10-02\r\nContent-Length: 0\r\nAuthorization: SharedKey acct:Hm3iDpk0XpE8Q\
             z1X1SM2zDr3qhyy6hF8k+ll4QtJa5I=\r\n\r\nGET / HTTP/1.1\r\nA b: c\r\n\r\n",
        chunk: 4_096,
        out: "HTTP/1.1 201 Created\r\nx-ms-request-id: 00000000-0000-0000-0000-000000000001\r\nx-ms-\
             version: 2020-10-02\r\nDate: Sat, 01 Jan 2022 00:00:00 GMT\r\nLast-Modified: Sat, 01 J\
             an 2022 00:00:00 GMT\r\nETag: \"0x0000000000000001\"\r\nContent-Length: 0\r\n\r\nHTTP/\
             1.1 400 Bad Request\r\nx-ms-request-id: 00000000-0000-0000-0000-000000000000\r\nx-ms-v\
             ersion: 2020-10-02\r\nDate: Sat, 01 Jan 2022 00:00:00 GMT\r\nx-ms-error-code: InvalidH\
             eaderValue\r\nContent-Type: application/xml\r\nContent-Length: 114\r\nConnection: clos\
             e\r\n\r\n<?xml version=\"1.0\" encoding=\"utf-8\"?><Error><Code>InvalidHeaderValue</Co\
             de><Message>head at 199</Message></Error>",
        end: ConnEnd::Closed { at: Some(199) },
        taken: 199,
        asked: 1,
        full: None,
        entries: 1,
    },
    // A request without its last byte.
    Row {
        limit: 10,
        budget: BUDGET,
        input: "PUT /data?restype=share HTTP/1.1\r\nx-ms-date: Sat, 01 Jan 2022 00:00:00 GMT\r\nx-ms-v\
             ersion: 2020-10-02\r\nContent-Length: 0\r\nAuthorization: SharedKey acct:Hm3iDpk0XpE8Q\
             z1X1SM2zDr3qhyy6hF8k+ll4QtJa5I=\r\n\r\nGET /data/a.txt HTTP/1.1\r\nx-ms-date: Sat, 01 \
             Jan 2022 00:00:00 GMT\r\nx-ms-version: 2020-10-02\r\nAuthorization: SharedKey acct:AMj\
             hWUQzLFnHM6YkesIotWae2N/N3HbGk/zPw9xFPqg=\r\n\r",
        chunk: 4_096,
        out: "HTTP/1.1 201 Created\r\nx-ms-request-id: 00000000-0000-0000-0000-000000000001\r\nx-ms-\
             version: 2020-10-02\r\nDate: Sat, 01 Jan 2022 00:00:00 GMT\r\nLast-Modified: Sat, 01 J\
             an 2022 00:00:00 GMT\r\nETag: \"0x0000000000000001\"\r\nContent-Length: 0\r\n\r\n",
        end: ConnEnd::Cut { left: 171 },
        taken: 370,
        asked: 1,
        full: None,
        entries: 1,
    },
    // A budget that ends in the second request.
    Row {
        limit: 10,
        budget: 299,
        input: "PUT /data?restype=share HTTP/1.1\r\nx-ms-date: Sat, 01 Jan 2022 00:00:00 GMT\r\nx-ms-v\
             ersion: 2020-10-02\r\nContent-Length: 0\r\nAuthorization: SharedKey acct:Hm3iDpk0XpE8Q\
             z1X1SM2zDr3qhyy6hF8k+ll4QtJa5I=\r\n\r\nGET /data/a.txt HTTP/1.1\r\nx-ms-date: Sat, 01 \
             Jan 2022 00:00:00 GMT\r\nx-ms-version: 2020-10-02\r\nAuthorization: SharedKey acct:AMj\
             hWUQzLFnHM6YkesIotWae2N/N3HbGk/zPw9xFPqg=\r\n\r\n",
        chunk: 4_096,
        out: "HTTP/1.1 201 Created\r\nx-ms-request-id: 00000000-0000-0000-0000-000000000001\r\nx-ms-\
             version: 2020-10-02\r\nDate: Sat, 01 Jan 2022 00:00:00 GMT\r\nLast-Modified: Sat, 01 J\
             an 2022 00:00:00 GMT\r\nETag: \"0x0000000000000001\"\r\nContent-Length: 0\r\n\r\n",
        end: ConnEnd::Spent,
        taken: 299,
        asked: 1,
        full: None,
        entries: 1,
    },
    // A full history.
    Row {
        limit: 0,
        budget: BUDGET,
        input: "PUT /data?restype=share HTTP/1.1\r\nx-ms-date: Sat, 01 Jan 2022 00:00:00 GMT\r\nx-ms-v\
             ersion: 2020-10-02\r\nContent-Length: 0\r\nAuthorization: SharedKey acct:Hm3iDpk0XpE8Q\
             z1X1SM2zDr3qhyy6hF8k+ll4QtJa5I=\r\n\r\nGET /data/a.txt HTTP/1.1\r\nx-ms-date: Sat, 01 \
             Jan 2022 00:00:00 GMT\r\nx-ms-version: 2020-10-02\r\nAuthorization: SharedKey acct:AMj\
             hWUQzLFnHM6YkesIotWae2N/N3HbGk/zPw9xFPqg=\r\n\r\n",
        chunk: 4_096,
        out: "HTTP/1.1 503 Service Unavailable\r\nx-ms-request-id: 00000000-0000-0000-0000-000000000\
             000\r\nx-ms-version: 2020-10-02\r\nDate: Sat, 01 Jan 2022 00:00:00 GMT\r\nx-ms-error-c\
             ode: HistoryFull\r\nContent-Type: application/xml\r\nContent-Length: 109\r\n\r\n<?xml \
             version=\"1.0\" encoding=\"utf-8\"?><Error><Code>HistoryFull</Code><Message>history 0 \
             0 0</Message></Error>HTTP/1.1 503 Service Unavailable\r\nx-ms-request-id: 00000000-000\
             0-0000-0000-000000000000\r\nx-ms-version: 2020-10-02\r\nDate: Sat, 01 Jan 2022 00:00:0\
             0 GMT\r\nx-ms-error-code: HistoryFull\r\nContent-Type: application/xml\r\nContent-Leng\
             th: 109\r\n\r\n<?xml version=\"1.0\" encoding=\"utf-8\"?><Error><Code>HistoryFull</Cod\
             e><Message>history 0 0 0</Message></Error>",
        end: ConnEnd::Ended,
        taken: 371,
        asked: 2,
        full: Some(Full {
            entries: 0,
            sessions: 0,
            limit: 0,
        }),
        entries: 0,
    },
    // Headers that stand twice: of the two ranges x-ms-range is read, two lengths that are the same are one length,
    // and x-ms-write may stand once alone.
    Row {
        limit: 10,
        budget: BUDGET,
        input: "PUT /data?restype=share HTTP/1.1\r\nx-ms-date: Sat, 01 Jan 2022 00:00:00 GMT\r\nx-ms\
             -version: 2020-10-02\r\nContent-Length: 0\r\nAuthorization: SharedKey acct:Hm3iDpk0XpE\
             8Qz1X1SM2zDr3qhyy6hF8k+ll4QtJa5I=\r\n\r\nPUT /data/a.txt HTTP/1.1\r\nx-ms-date: Sat, 0\
             1 Jan 2022 00:00:00 GMT\r\nx-ms-version: 2020-10-02\r\nContent-Length: 0\r\nx-ms-type: \
             file\r\nx-ms-content-length: 4\r\nx-ms-file-permission: inherit\r\nx-ms-file-attribut\
             es: none\r\nx-ms-file-creation-time: now\r\nx-ms-file-last-write-time: now\r\nAuthoriz\
             ation: SharedKey acct:vImSkc2+95A+6u0slTxIpTv4RehAHrjrN9pzcEi6Kpc=\r\n\r\nPUT /data/a.\
             txt?comp=range HTTP/1.1\r\nx-ms-date: Sat, 01 Jan 2022 00:00:00 GMT\r\nx-ms-version: 2\
             020-10-02\r\nContent-Length: 4\r\nRange: bytes=5-6\r\nx-ms-range: bytes=0-3\r\nx-ms-wr\
             ite: update\r\nAuthorization: SharedKey acct:VIGl9sWmyKQpbcU9EOxRBTceqDy6vNQugcZIE7UHy\
             tA=\r\n\r\nnew!PUT /data/a.txt?comp=range HTTP/1.1\r\nx-ms-date: Sat, 01 Jan 2022 00:0\
             0:00 GMT\r\nx-ms-version: 2020-10-02\r\nContent-Length: 2\r\ncontent-length: 2\r\nx-ms\
             -range: bytes=1-2\r\nx-ms-write: update\r\nAuthorization: SharedKey acct:r1i8JKLTzDn8P\
             ID3FHDiFOJjllNR2l6vLUH6sfSmER8=\r\n\r\nowPUT /data/a.txt?comp=range HTTP/1.1\r\nx-ms-d\
             ate: Sat, 01 Jan 2022 00:00:00 GMT\r\nx-ms-version: 2020-10-02\r\nContent-Length: 4\r\
             \nx-ms-range: bytes=0-3\r\nx-ms-write: update\r\nx-ms-write: update\r\nAuthorization: \
             SharedKey acct:JY4gMJ8NtTsLAeAOPsqVuQiEs3VvRFPR+ML1LPzXExI=\r\n\r\nlostGET /data/a.txt \
             HTTP/1.1\r\nx-ms-date: Sat, 01 Jan 2022 00:00:00 GMT\r\nx-ms-version: 2020-10-02\r\nA\
             uthorization: SharedKey acct:AMjhWUQzLFnHM6YkesIotWae2N/N3HbGk/zPw9xFPqg=\r\n\r\n",
        chunk: 4_096,
        out: "HTTP/1.1 201 Created\r\nx-ms-request-id: 00000000-0000-0000-0000-000000000001\r\nx-ms-\
             version: 2020-10-02\r\nDate: Sat, 01 Jan 2022 00:00:00 GMT\r\nLast-Modified: Sat, 01 J\
             an 2022 00:00:00 GMT\r\nETag: \"0x0000000000000001\"\r\nContent-Length: 0\r\n\r\nHTTP/\
             1.1 201 Created\r\nx-ms-request-id: 00000000-0000-0000-0000-000000000002\r\nx-ms-versi\
             on: 2020-10-02\r\nDate: Sat, 01 Jan 2022 00:00:00 GMT\r\nLast-Modified: Sat, 01 Jan 20\
             22 00:00:00 GMT\r\nETag: \"0x0000000000000002\"\r\nx-ms-file-attributes: None\r\nx-ms-\
             file-creation-time: 2022-01-01T00:00:00.0000000Z\r\nx-ms-file-last-write-time: 2022-01\
             -01T00:00:00.0000000Z\r\nx-ms-file-change-time: 2022-01-01T00:00:00.0000000Z\r\nx-ms-f\
             ile-id: 2\r\nx-ms-file-parent-id: 1\r\nContent-Length: 0\r\n\r\nHTTP/1.1 201 Created\r\
             \nx-ms-request-id: 00000000-0000-0000-0000-000000000003\r\nx-ms-version: 2020-10-02\r\
             \nDate: Sat, 01 Jan 2022 00:00:00 GMT\r\nLast-Modified: Sat, 01 Jan 2022 00:00:00 GMT\
             \r\nETag: \"0x0000000000000003\"\r\nContent-Length: 0\r\n\r\nHTTP/1.1 201 Created\r\nx\
             -ms-request-id: 00000000-0000-0000-0000-000000000004\r\nx-ms-version: 2020-10-02\r\nDa\
             te: Sat, 01 Jan 2022 00:00:00 GMT\r\nLast-Modified: Sat, 01 Jan 2022 00:00:00 GMT\r\nE\
             Tag: \"0x0000000000000004\"\r\nContent-Length: 0\r\n\r\nHTTP/1.1 400 Bad Request\r\nx-\
             ms-request-id: 00000000-0000-0000-0000-000000000000\r\nx-ms-version: 2020-10-02\r\nDat\
             e: Sat, 01 Jan 2022 00:00:00 GMT\r\nx-ms-error-code: InvalidHeaderValue\r\nContent-Typ\
             e: application/xml\r\nContent-Length: 120\r\n\r\n<?xml version=\"1.0\" encoding=\"utf-\
             8\"?><Error><Code>InvalidHeaderValue</Code><Message>header x-ms-write</Message></Error\
             >HTTP/1.1 200 OK\r\nx-ms-request-id: 00000000-0000-0000-0000-000000000005\r\nx-ms-vers\
             ion: 2020-10-02\r\nDate: Sat, 01 Jan 2022 00:00:00 GMT\r\nLast-Modified: Sat, 01 Jan 2\
             022 00:00:00 GMT\r\nETag: \"0x0000000000000004\"\r\nContent-Type: application/octet-st\
             ream\r\nAccept-Ranges: bytes\r\nx-ms-type: File\r\nx-ms-file-attributes: None\r\nx-ms-\
             file-creation-time: 2022-01-01T00:00:00.0000000Z\r\nx-ms-file-last-write-time: 2022-01\
             -01T00:00:00.0000000Z\r\nx-ms-file-change-time: 2022-01-01T00:00:00.0000000Z\r\nx-ms-f\
             ile-id: 2\r\nx-ms-file-parent-id: 1\r\nx-ms-lease-status: unlocked\r\nx-ms-lease-state\
             : available\r\nContent-Length: 4\r\n\r\nnow!",
        end: ConnEnd::Ended,
        taken: 1_526,
        asked: 5,
        full: None,
        entries: 5,
    },
];
