use client_registry::{Doc, DocFault, DocId, Docs, HashKeys, Registry, Word, WordFault, Zero};
use std::alloc::Global;
use std::test::Fail;

/// The document of this identifier whose words are these texts.
fn doc(alloc: Global, id: u64, texts: &[&[u8]]) -> Option<Doc> {
    Doc::new(alloc, DocId::new(id).ok()?, words(alloc, texts)?).ok()
}

/// Bytes, and the first fault for which they are no word.
#[derive(Clone, Copy)]
struct Bytes<'a> {
    bytes: &'a [u8],
    fault: Option<WordFault>,
}

/// Bytes that are a word, and the first fault of those that are none.
#[test]
fn words_are_refused_at_the_first_bad_byte(rt: HostRuntime) -> Result<(), Fail> {
    let x64 = [b'x'; 64];
    let x65 = [b'x'; 65];
    let rows: [Bytes<'_>; 9] = [
        Bytes {
            bytes: b"",
            fault: Some(WordFault::Empty),
        },
        Bytes {
            bytes: &x64,
            fault: None,
        },
        Bytes {
            bytes: &x65,
            fault: Some(WordFault::TooLong(65)),
        },
        Bytes {
            bytes: b"a\x7f",
            fault: Some(WordFault::BadByte(1)),
        },
        Bytes {
            bytes: b"a\xff",
            fault: Some(WordFault::BadByte(1)),
        },
        Bytes {
            bytes: b"\xc3\xa9t\xc3\xa9",
            fault: None,
        },
        Bytes {
            bytes: b"ab c",
            fault: Some(WordFault::BadByte(2)),
        },
        Bytes {
            bytes: b"ab\xc3",
            fault: Some(WordFault::BadByte(2)),
        },
        Bytes {
            bytes: b"\x21\x1f\xff",
            fault: Some(WordFault::BadByte(1)),
        },
    ];
    for Bytes { bytes, fault } in rows {
        match Word::read(bytes) {
            Ok(word) => {
                assert_eq!(rt; fault, None);
                assert_eq!(rt; word.bytes(), bytes);
            }
            Err(why) => assert_eq!(rt; fault, Some(why)),
        }
    }
    Ok(())
}

/// One word more.
fn put(words: &mut Vec<Word>, text: &[u8]) -> Option<()> {
    words.push(Word::read(text).ok()?).ok()
}

/// These texts as words, in their order.
fn words(alloc: Global, texts: &[&[u8]]) -> Option<Vec<Word>> {
    let mut words = Vec::new(alloc);
    for text in texts {
        put(&mut words, text)?;
    }
    Some(words)
}

/// So many different words of three letters.
fn different_words(alloc: Global, count: u32) -> Option<Vec<Word>> {
    let mut words = Vec::new(alloc);
    for i in 0..count {
        let letters = [i % 26, i / 26 % 26, i / 676 % 26];
        let text = letters.map(|letter| b'a' + (letter % 26) as u8);
        put(&mut words, &text)?;
    }
    Some(words)
}

/// One document more, of this identifier and these texts as words.
fn push(alloc: Global, docs: &mut Docs, id: u64, texts: &[&[u8]]) -> Option<()> {
    docs.push(doc(alloc, id, texts)?).ok()
}

/// An identifier and texts that are words.
#[derive(Clone, Copy)]
struct Row<'a> {
    id: u64,
    words: &'a [&'a [u8]],
}

/// The documents of these rows.
fn docs_of(alloc: Global, rows: &[Row<'_>]) -> Option<Docs> {
    let mut docs = Docs::new(alloc, HashKeys::new(3, 5));
    for row in rows {
        push(alloc, &mut docs, row.id, row.words)?;
    }
    Some(docs)
}

/// The number of words of a document of these, or why there is none.
fn made(alloc: Global, words: Option<Vec<Word>>) -> Option<Result<usize, DocFault>> {
    Some(Doc::new(alloc, DocId::new(u64::MAX).ok()?, words?).map(|doc| doc.words().len()))
}

/// 4,097 words, a word twice, and 4,096 different words.
#[test]
fn documents_have_few_and_different_words(rt: HostRuntime) {
    let alloc = rt.alloc();
    assert_eq!(rt; DocId::new(0).err(), Some(Zero));
    assert_eq!(rt; DocId::new(u64::MAX).map(|id| id.get()), Ok(u64::MAX));
    assert_eq!(rt;
        made(alloc, different_words(alloc, 4097)),
        Some(Err(DocFault::TooManyWords(4097)))
    );
    assert_eq!(rt;
        made(alloc, words(alloc, &[b"b", b"a", b"a"])),
        Some(Err(DocFault::RepeatedWord(2)))
    );
    assert_eq!(rt; made(alloc, different_words(alloc, 4096)), Some(Ok(4096)));
}

/// A word by its number, and the length of its list.
fn numbered(docs: &Docs, number: usize) -> Option<(&[u8], u32)> {
    if number < docs.words() {
        Some((docs.word(number).bytes(), docs.list_len(number)))
    } else {
        None
    }
}

/// The numbers of the words of a document.
fn numbers_at(docs: &Docs, place: usize) -> Option<&[u32]> {
    if place < docs.len() {
        Some(docs.get(place).numbers)
    } else {
        None
    }
}

/// The first four words by their numbers, and the numbers of the first three documents.
fn numbering(docs: &Docs) -> ([Option<(&[u8], u32)>; 4], [Option<&[u32]>; 3]) {
    let words = [
        numbered(docs, 0),
        numbered(docs, 1),
        numbered(docs, 2),
        numbered(docs, 3),
    ];
    let numbers = [
        numbers_at(docs, 0),
        numbers_at(docs, 1),
        numbers_at(docs, 2),
    ];
    (words, numbers)
}

/// Three words in two documents, with the length of each list.
#[test]
fn words_are_numbered_by_first_appearance(rt: HostRuntime) -> Result<(), Fail> {
    let rows: [Row<'_>; 2] = [
        Row {
            id: 3,
            words: &[b"b", b"a"],
        },
        Row {
            id: 9,
            words: &[b"a", b"c"],
        },
    ];
    let docs = docs_of(rt.alloc(), &rows).ok_or("no documents")?;
    let words: [Option<(&[u8], u32)>; 4] = [
        Some((b"b", 1)),
        Some((b"a", 2)),
        Some((b"c", 1)),
        None,
    ];
    let numbers: [Option<&[u32]>; 3] = [Some(&[0, 1]), Some(&[1, 2]), None];
    assert_eq!(rt; numbering(&docs), (words, numbers));
    Ok(())
}

/// Adds the document, where none of its counters is at its end.
fn add(registry: &mut Registry, doc: Doc) -> Option<()> {
    registry.reserve(&doc).ok()?;
    match registry.full_counter(&doc) {
        Some(_) => None,
        None => registry.add(doc).ok(),
    }
}

/// Document 5 of the word `a` is added, deleted, and added again with a new word before the one that it had.
fn add_again(alloc: Global, registry: &mut Registry, id: DocId) -> Option<()> {
    add(registry, doc(alloc, 5, &[b"a"])?)?;
    registry.delete(id).ok()?;
    add(registry, doc(alloc, 5, &[b"c", b"a"])?)
}

/// Document 1 of the word `a`, and then that.
fn added_again(alloc: Global, id: DocId) -> Option<Registry> {
    let mut registry = Registry::from_docs(docs_of(
        alloc,
        &[Row {
            id: 1,
            words: &[b"a"],
        }],
    )?);
    add_again(alloc, &mut registry, id)?;
    Some(registry)
}

/// The counter of a word, and whether it is listed with the identifier.
fn listed(registry: &Registry, text: &[u8], id: DocId) -> Option<(u32, bool)> {
    let word = Word::read(text).ok()?;
    Some((registry.counter(&word), registry.is_listed(&word, id)))
}

/// What is listed with document 5: its counter and whether it is, of the words `a`, `c` and `z`, and the numbers of its words.
fn listings(registry: &Registry, id: DocId) -> ([Option<(u32, bool)>; 3], Option<&[u32]>) {
    let words = [
        listed(registry, b"a", id),
        listed(registry, b"c", id),
        listed(registry, b"z", id),
    ];
    (words, registry.get(id).map(|doc| doc.numbers))
}

/// Each pair is counted at its first addition.
#[test]
fn a_pair_is_counted_once(rt: HostRuntime) -> Result<(), Fail> {
    let id = DocId::new(5).ok().ok_or("no identifier")?;
    let registry = added_again(rt.alloc(), id).ok_or("no registry")?;
    let words = [Some((1, true)), Some((1, true)), Some((0, false))];
    assert_eq!(rt; listings(&registry, id), (words, Some([1, 0].as_slice())));
    Ok(())
}
