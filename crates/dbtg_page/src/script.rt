//! What follows a page's data: the end of their list, and the script that draws them. tests/tools/make-page-script makes this file from page.js.

pub static SCRIPT: &str = "\
[]]
</script>
<script>
'use strict';

// ---- what the data say

const LETTERS = {
  b: 'begins', a: 'takes an area', c: 'takes a cell', R: 'turns back: the true owners are noted', r: 'puts a cell back in turning back',
  T: 'draws its ticket', X: 'draws its ticket', l: 'links a cell', p: 'puts a cell back', v: 'leaves an area',
  Q: 'quits, and gives all back', B: 'is blocked: another unit holds what it wants', I: 'is idle',
};
const MOST_NAMED = 12, MOST_DRAWN = 240, MOST_ROWS = 400, CHUNK = 60;
const COLOURS = ['#0b7fa0', '#b5179e', '#7b57e0', '#b8660b', '#2b8a3e', '#d6404a', '#2f7fd6', '#868e00'];
const names = { FILES: [], TYPES: [], SETS: [], AREAS: [] };
// A step is an event, or a statement with its ticket where no events are shown.
const scripts = [], steps = [], tickets = [], causes = new Map();

const at = (id) => document.getElementById(id);
const linesOf = (text) => text.split('\\n').filter((line) => line !== '');
const typeOf = (key) => key.split(':')[0];
const colourOf = (set) => COLOURS[names.SETS.indexOf(set) % COLOURS.length];
const escaped = (text) => text.replaceAll('&', '&amp;').replaceAll('<', '&lt;').replaceAll('>', '&gt;');
const trimmed = (text) => text.replace(/\"([^\"]*?) *\"/g, '\"$1\"');
const fileOf = (unit) => (names.FILES[unit] || `unit ${unit}`).split('/').pop();
const hasEvents = () => steps.some((step) => step.letter);

// The line of an answer: ticket, unit and status, then the key and the items that were found.
function answerOf(line) {
  const [number, unit, status, ...found] = line.trim().split(' ');
  return { line, number: Number(number), unit: Number(unit), status, key: found[0] || '', found: trimmed(found.join(' ')), refused: status !== '0000', cause: causes.get(status.slice(2)) };
}

const READERS = {
  SCRIPT: (fields) => scripts.push(fields),
  CAUSES: ([text]) => linesOf(text).forEach((line) => causes.set(line.slice(0, 2), line.split('|'))),
  STATE: ([text]) => lines.push(...text.split('\\n')),
  EVENT: ([unit, letter, place, about]) => steps.push({ unit: Number(unit), letter, place: Number(place), about, ticket: tickets.length }),
  TICKET: ([line, ...changes]) => {
    const answer = answerOf(line);
    tickets.push({ ...answer, changes, touched: new Set(), boxes: [] });
    const last = steps[steps.length - 1];
    const step = last && last.letter && !last.answer ? last : { unit: answer.unit, place: -1, about: '' };
    if (step !== last) steps.push(step);
    Object.assign(step, { answer, ticket: tickets.length });
    tickets[tickets.length - 1].step = steps.length;
  },
};

function read() {
  for (const [kind, ...fields] of JSON.parse(at('run').textContent)) {
    if (kind in names) names[kind] = fields;
    else if (kind) READERS[kind](fields);
  }
  const made = scripts.map(() => 0);
  for (const ticket of tickets) ticket.text = (scripts[ticket.unit - 1] || [])[made[ticket.unit - 1]++] || '-';
}

// ---- the database and the units after a ticket: the lines that `replay` prints, and what they say

const lines = [], records = new Map(), lists = new Map(), areas = new Map(), units = new Map();
// What a line says is kept, since most lines stay.
const said = new Map();
let reached = 0, learned = -1;

const partsOf = (line) => line.match(/[A-Z0-9-]+=(?:[0-9]+|\"[^\"]*\")/g) || [];
const isRecord = (line) => /^[A-Z0-9-]+:/.test(line);
const isList = (line) => /^[A-Z0-9-]+ [A-Z0-9-]+(?::[0-9.]+)?:( |$)/.test(line);

function sayingOf(line) {
  const [first, second, ...rest] = line.split(' ');
  if (isRecord(line)) return [records, first, partsOf(line)];
  if (isList(line)) return [lists, `${first} ${second}`, { set: first, owner: second.slice(0, -1), members: rest }];
  if (first === 'AREA') return [areas, second, rest];
  if (first === 'UNIT') return [units, Number(second), currentsOf(line)];
  return null;
}

// Reads the lines as they are now.
function learn() {
  if (learned === reached) return;
  learned = reached;
  for (const map of [records, lists, areas, units]) map.clear();
  for (const line of lines) {
    if (!said.has(line)) said.set(line, sayingOf(line));
    const found = said.get(line);
    if (found) found[0].set(found[1], found[2]);
  }
}

// The line of a unit: current of run-unit, of each record type, set and area, and what is kept.
function currentsOf(line) {
  const parts = {};
  let part = [];
  for (const word of line.split(' ').slice(2)) {
    if (['RUN', 'RECORD', 'SET', 'AREA', 'KEPT'].includes(word)) parts[word] = part = [];
    else part.push(word);
  }
  return { run: parts.RUN[0], types: parts.RECORD, sets: parts.SET, areas: parts.AREA, kept: parts.KEPT || [] };
}

const editOf = (text) => text.match(/^(\\d+)([-+~])([^]*)$/).slice(1);

// The words of a line after its changes: a number of words stay, then +WORD comes, or -N go.
function wordsAfter(line, changes) {
  const words = line.split(' ');
  let place = 0;
  for (const [stay, sign, about] of changes.split(' ').filter(Boolean).map(editOf)) {
    place += Number(stay);
    if (sign === '+') words.splice(place++, 0, about);
    else words.splice(place, Number(about));
  }
  return words.join(' ');
}

// What a ticket exchanges: the place, how many lines go, and those that come. A number of lines stay, then +LINE comes, -N go, or ~ turns.
function exchangesOf(changes) {
  let place = 0;
  return changes.map((change) => {
    const [stay, sign, about] = editOf(change);
    place += Number(stay);
    const here = place;
    if (sign !== '-') place += 1;
    return sign === '-' ? [here, Number(about), () => []] : sign === '+' ? [here, 0, () => [about]] : [here, 1, () => [wordsAfter(lines[here], about)]];
  });
}

// One ticket on: what goes and what comes in its place is kept for the way back, and for the next time. One ticket back.
function stepOn() {
  const ticket = tickets[reached++];
  if (ticket.exchanged) ticket.exchanged.forEach(([place, gone, come]) => lines.splice(place, gone.length, ...come));
  else ticket.exchanged = exchangesOf(ticket.changes).map(([place, count, comes]) => {
    const come = comes();
    return [place, lines.splice(place, count, ...come), come];
  });
  return ticket;
}

function stepBack() {
  const ticket = tickets[--reached];
  [...ticket.exchanged].reverse().forEach(([place, gone, come]) => lines.splice(place, come.length, ...gone));
}

function reach(count) {
  while (reached < count) stepOn();
  while (reached > count) stepBack();
  learn();
}

// ---- which records a ticket touches, and how large their boxes get

const all = new Map();
// Which types own which, or are below SYSTEM, at any time of the run.
const pairs = new Set();

const notePairs = ({ owner, members }) => members.length > 0 && pairs.add(`${typeOf(owner)} ${typeOf(members[0])}`);

function note(key, parts) {
  const it = all.get(key) || { key, width: 60, height: 0 };
  it.width = Math.max(it.width, ...[key, ...parts].map((text) => trimmed(text).length * 7.3 + 18));
  it.height = Math.max(it.height, (parts.length + 1) * GAP.line + 10);
  all.set(key, it);
}

function touch(ticket, line, other) {
  const [first, second] = line.split(' ');
  if (isRecord(line)) ticket.touched.add(first);
  if (!isList(line)) return;
  notePairs(sayingOf(line)[2]);
  if (second !== 'SYSTEM:') ticket.touched.add(second.slice(0, -1));
  const there = new Set((other || '').split(' ').slice(2));
  line.split(' ').slice(2).forEach((member) => there.has(member) || ticket.touched.add(member));
}

// What stands in a record's box: its items, and the old value too where a ticket changed it.
function partsShown(key, parts, old) {
  if (!old) return parts;
  const before = new Map(old.map((part) => [part.split('=')[0], part.slice(part.indexOf('=') + 1)]));
  return parts.map((part) => {
    const [name, value] = [part.split('=')[0], part.slice(part.indexOf('=') + 1)];
    return before.has(name) && before.get(name) !== value ? `${name} ${before.get(name)} \\u2192 ${value}` : part;
  });
}

// Goes through the run once.
function goThrough() {
  learn();
  for (const [key, parts] of records) note(key, parts);
  for (const list of lists.values()) notePairs(list);
  while (reached < tickets.length) {
    const ticket = stepOn();
    if (ticket.key.includes(':')) ticket.touched.add(ticket.key);
    ticket.old = new Map();
    for (const [, gone, come] of ticket.exchanged) {
      gone.forEach((line, i) => touch(ticket, line, come[i]));
      come.forEach((line, i) => touch(ticket, line, gone[i]));
      gone.filter(isRecord).forEach((line) => ticket.old.set(line.split(' ')[0], partsOf(line)));
    }
    for (const line of ticket.exchanged.flatMap((it) => it[2]).filter(isRecord)) {
      const key = line.split(' ')[0];
      note(key, partsShown(key, partsOf(line), ticket.old.get(key)));
    }
  }
}

// ---- which records are drawn, and where: owners above members, each in one place as long as the same records are drawn

const GAP = { x: 44, y: 66, line: 16 };
const asked = new Set();
let isShort = true, places = new Map(), extent = { width: 0, height: 0 }, drawnFor = '';

// The tickets whose records are drawn: all of a short run, otherwise those around the one that is shown.
function span() {
  if (isShort) return [0, tickets.length];
  const from = Math.floor(Math.max(0, reached - 1) / CHUNK) * CHUNK;
  return [from, from + CHUNK];
}

function addOwners(keys) {
  for (let turn = 0; turn < names.TYPES.length; turn += 1) {
    for (const { owner, members } of lists.values()) if (owner !== 'SYSTEM' && !keys.has(owner) && members.some((member) => keys.has(member))) keys.add(owner);
  }
}

function levels() {
  const level = new Map(names.TYPES.map((name) => [name, 0]));
  for (let turn = 0; turn < names.TYPES.length; turn += 1) {
    for (const pair of pairs) {
      const [owner, member] = pair.split(' ');
      if (owner !== member && owner !== 'SYSTEM') level.set(member, Math.min(names.TYPES.length, Math.max(level.get(member), level.get(owner) + 1)));
    }
  }
  return level;
}

// Looks at the database at the end of the span too, so that places hold for all of it.
function choose() {
  const [from, to] = span();
  const wanted = `${from} ${[...asked].join()} ${at('right').clientWidth}`;
  if (wanted === drawnFor) return;
  drawnFor = wanted;
  const here = reached;
  const keys = new Set(tickets.slice(from, to).flatMap((ticket) => [...ticket.touched]));
  for (const key of all.keys()) if (asked.has(typeOf(key))) keys.add(key);
  addOwners(keys);
  reach(Math.min(to, tickets.length));
  addOwners(keys);
  place(keys, levels());
  reach(here);
}

function place(keys, level) {
  const owners = new Map();
  for (const { owner, members } of lists.values()) members.forEach((member, rank) => keys.has(member) && !owners.has(member) && owner !== 'SYSTEM' && owners.set(member, { owner, rank }));
  const room = Math.max(300, at('right').clientWidth - 70);
  [places, extent] = [new Map(), { width: 0, height: 0 }];
  let top = 12;
  if ([...pairs].some((pair) => pair.startsWith('SYSTEM '))) {
    places.set('SYSTEM', { x: 16, y: top, width: 80, height: 26 });
    top += 26 + GAP.y;
  }
  const centre = ({ owner }) => (places.has(owner) ? places.get(owner).x + places.get(owner).width / 2 : 0);
  for (const row of [...new Set(level.values())].sort((a, b) => a - b)) {
    const here = [...all.values()].filter(({ key }) => keys.has(key) && level.get(typeOf(key)) === row).map((it) => ({ ...it, ...(owners.get(it.key) || { owner: '', rank: 0 }) }));
    here.sort((a, b) => centre(a) - centre(b) || a.rank - b.rank);
    let left = 16, tallest = 0;
    for (const it of here) {
      if (left > 16 && left + it.width > room) [top, left, tallest] = [top + tallest + GAP.y, 16, 0];
      places.set(it.key, { x: left, y: top, width: it.width, height: it.height });
      extent.width = Math.max(extent.width, left + it.width + 40);
      left += it.width + GAP.x;
      tallest = Math.max(tallest, it.height);
    }
    if (here.length > 0) top += tallest + GAP.y;
  }
  extent.height = top + 10;
}

// ---- drawing

const hidden = new Set();
const word = (kind, x, y, text, rest = '') => `<text class='${kind}' x='${x}' y='${y}' ${rest}>${escaped(text)}</text>`;

// From one box to another: straight to the next in a row, otherwise bent from below or above.
function path(from, to, shift) {
  const [a, b] = [from.x + from.width / 2 + shift, to.x + to.width / 2 + shift];
  if (to.y > from.y) {
    const [y, z] = [from.y + from.height, to.y];
    return `M${a},${y} C${a},${(y + z) / 2} ${b},${(y + z) / 2} ${b},${z}`;
  }
  if (to.y < from.y) {
    const [y, z] = [from.y, to.y + to.height];
    return `M${a},${y} C${a},${(y + z) / 2} ${b},${(y + z) / 2} ${b},${z}`;
  }
  const y = from.y + Math.min(from.height, to.height) / 2 + shift / 3;
  if (to.x > from.x && to.x - from.x - from.width <= GAP.x + 1) return `M${from.x + from.width},${y} L${to.x},${y}`;
  return `M${a},${from.y} C${a},${from.y - 40} ${b},${from.y - 40} ${b},${to.y}`;
}

// The name of a set on its way from the owner to the first member, below what is current at the owner.
function nameOf(set, from, to, shift) {
  const [a, b] = [from.x + from.width / 2 + shift, to.x + to.width / 2 + shift];
  const down = to.y - from.y - from.height;
  const part = down <= GAP.y ? 0.72 : 0.25;
  const bend = 3 * part * part - 2 * part * part * part;
  const fall = 1.5 * part * (1 - part) + part * part * part;
  return word('name', a + (b - a) * bend + 4, from.y + from.height + Math.max(30, down * fall), set, `style='fill:${colourOf(set)}'`);
}

// A list as a ring: the owner, the members in their order, and back to the owner. Where members are not drawn, the way is dotted.
function ring({ set, owner, members }) {
  const drawn = members.map((key, place) => ({ key, place })).filter(({ key }) => places.has(key));
  if (drawn.length === 0 || hidden.has(set) || !places.has(owner)) return '';
  const number = names.SETS.indexOf(set);
  const shift = (number - (names.SETS.length - 1) / 2) * Math.min(12, 64 / names.SETS.length);
  const stops = [{ key: owner, place: -1 }, ...drawn, { key: owner, place: members.length }];
  const parts = stops.slice(1).map((to, i) => {
    const left = to.place - stops[i].place - 1;
    const kind = `ring${i === drawn.length ? ' back' : ''}${left > 0 ? ' gap' : ''}`;
    const bend = i === drawn.length ? shift + 6 : shift;
    const title = left > 0 ? `<title>${left} more</title>` : '';
    return `<path class='${kind}' d='${path(places.get(stops[i].key), places.get(to.key), bend)}' stroke='${colourOf(set)}' marker-end='url(#head${number})'>${title}</path>`;
  });
  return `<g class='list'>${parts.join('')}${nameOf(set, places.get(owner), places.get(drawn[0].key), shift)}</g>`;
}

// What of a unit is current at a record.
function marksOf(currents) {
  const marks = new Map();
  const mark = (key, text, colour) => key && key !== '-' && marks.set(key, [...(marks.get(key) || []), [text, colour]]);
  mark(currents.run, 'RUN-UNIT', 'var(--chosen)');
  currents.types.forEach((key, i) => mark(key, names.TYPES[i], 'var(--faint)'));
  currents.sets.forEach((place, i) => {
    const [owner, member] = place.split('/');
    mark(member === 'OWNER' ? owner : member, names.SETS[i], colourOf(names.SETS[i]));
  });
  currents.areas.forEach((key, i) => mark(key, names.AREAS[i], 'var(--faint)'));
  currents.kept.forEach((kept) => mark(kept.split('/')[0], 'KEPT', 'var(--waits)'));
  return marks;
}

function box(key, items, marks, isRun, isChanged) {
  const it = places.get(key);
  const texts = [key, ...items].map((text, i) => word(i === 0 ? 'key' : 'item', it.x + 8, it.y + 17 + i * GAP.line, trimmed(text)));
  let [left, below] = [it.x, it.y + it.height + 12];
  const under = marks.map(([text, colour]) => {
    const width = text.length * 8 + 8;
    if (left > it.x && left + width > it.x + it.width + GAP.x) [left, below] = [it.x, below + 12];
    left += width;
    return word('mark', left - width, below, text, `style='fill:${colour}'`);
  });
  const kind = `box${isRun ? ' run' : ''}${isChanged ? ' changed' : ''}`;
  return `<g class='record'><rect class='${kind}' x='${it.x}' y='${it.y}' width='${it.width}' height='${it.height}' rx='4'/>${texts.join('')}${under.join('')}</g>`;
}

function picture(ticket, currents) {
  const marks = currents ? marksOf(currents) : new Map();
  const heads = names.SETS.map((set, i) => `<marker id='head${i}' viewBox='0 0 8 8' refX='7' refY='4' markerWidth='7' markerHeight='7' orient='auto'><path d='M0,0 L8,4 L0,8 z' fill='${colourOf(set)}'/></marker>`);
  const came = new Set(ticket ? ticket.exchanged.flatMap((it) => it[2]).filter(isRecord).map((line) => line.split(' ')[0]) : []);
  const boxes = [...places.keys()].filter((key) => records.has(key)).map((key) => {
    const parts = partsShown(key, records.get(key), came.has(key) && ticket.old.get(key));
    return box(key, parts, marks.get(key) || [], currents && currents.run === key, came.has(key));
  });
  if (places.has('SYSTEM')) boxes.push(box('SYSTEM', [], marks.get('SYSTEM') || [], false, false));
  return `<svg width='${extent.width}' height='${extent.height}'><defs>${heads.join('')}</defs>${[...lists.values()].map(ring).join('')}${boxes.join('')}</svg>`;
}

// The records that are not drawn, counted by type.
function moreRecords() {
  const left = new Map();
  for (const key of records.keys()) if (!places.has(key)) left.set(typeOf(key), (left.get(typeOf(key)) || 0) + 1);
  return names.TYPES.filter((name) => left.has(name)).map((name) => `<button data-type='${name}'>${name}: ${left.get(name)} more</button>`).join('');
}

// ---- where the units are after a number of events

function placesOfUnits(count) {
  const all = scripts.map(() => ({ made: 0, areas: [], cells: [], open: false, ticket: false, waits: '', text: '' }));
  for (const { unit, letter, answer, about, place } of steps.slice(0, count)) {
    const it = all[unit - 1];
    if (!it) continue;
    it.waits = letter === 'B' ? about : '';
    if (letter === 'b') Object.assign(it, { open: true, ticket: false });
    if (letter === 'a') it.areas.push(about);
    if (letter === 'c') it.cells.push(about);
    if (letter === 'p' || letter === 'r') it.cells.pop();
    if (letter === 'v') it.areas.pop();
    if (letter === 'Q') Object.assign(it, { areas: [], cells: [], open: false });
    if (answer) [it.ticket, it.made] = [true, it.made + 1];
    if (it.ticket && it.areas.length + it.cells.length === 0) it.open = false;
    it.text = scripts[unit - 1][place] || '-';
  }
  return all;
}

// What a unit waits for, and who holds it now.
function waitOf(all, unit) {
  const it = all[unit - 1];
  const found = it.waits.match(/^waits for (.+?)( exclusively)?, held/);
  if (!found) return '';
  const [, name, alone] = found;
  const isAlone = (other) => alone || name.includes('(') || other.text.startsWith('DELETE');
  const holders = all.map((other, i) => [other, i + 1]).filter(([other, number]) => number !== unit && [...other.areas, ...other.cells].includes(name) && isAlone(other)).map((pair) => pair[1]);
  return holders.length > 0 ? `waits for ${name}, held by ${holders.map(fileOf).join(', ')}` : `waited for ${name}, free now`;
}

// What a unit holds, in the order of taking; of many the last ones.
function holding({ areas, cells }) {
  if (areas.length + cells.length === 0) return 'holds nothing';
  const left = cells.length > MOST_NAMED ? [`${cells.length - MOST_NAMED} cells`] : [];
  return `holds ${[...areas, ...left, ...cells.slice(-MOST_NAMED)].join(', ')}`;
}

// ---- words

function told(step) {
  if (!step) return '<p>The database at the start. Step on with the arrow keys.</p>';
  const { unit, letter, about, answer } = step;
  const text = answer ? tickets[step.ticket - 1].text : (scripts[unit - 1] || [])[step.place] || '-';
  const first = `<b>${escaped(fileOf(unit))}</b> ${letter ? LETTERS[letter] : ''} <code>${escaped(trimmed(text))}</code>`;
  if (!answer) return `<p>${first}</p>${about && `<p>It ${letter === 'B' ? '' : 'takes '}${escaped(about)}.</p>`}`;
  const [, name, meaning, next] = answer.cause || ['', '', '', ''];
  const status = `<span class='status${answer.refused ? ' refused' : ''}'>${answer.status}</span>`;
  if (!answer.refused) return `<p>${first}</p><p>Ticket ${answer.number}: ${status} done ${escaped(answer.found)}</p>`;
  return `<p>${first}</p><p>Ticket ${answer.number}: ${status} refused, <b>${escaped(name)}</b>. ${escaped(meaning)} <i>${escaped(next)}</i></p>`;
}

// One axis of time: a row for each ticket, its statement in the column of its unit.
let columns = [], rowsFrom = -1;

function statementsHead() {
  const heads = columns.map((unit) => `<th data-unit='${unit}'><b>${escaped(fileOf(unit))}</b><span class='waits'></span><small></small></th>`);
  at('rows').innerHTML = `<thead><tr><th></th>${heads.join('')}</tr></thead><tbody></tbody>`;
  at('rows').style.setProperty('--units', columns.length);
}

function statementRow({ number, unit, text, status, refused, cause, found }, index) {
  const cells = columns.map(() => '<td></td>');
  cells[columns.indexOf(unit)] = `<td>${escaped(trimmed(text))}<span class='status${refused ? ' refused' : ''}'>${status} ${escaped(refused ? cause[1] : found)}</span></td>`;
  return `<tr data-ticket='${index + 1}'><th>${number}</th>${cells.join('')}</tr>`;
}

// Of many tickets those around the one that is shown have their rows.
function statementRows() {
  const from = Math.max(0, Math.floor((reached - MOST_ROWS / 4) / (MOST_ROWS / 2)) * (MOST_ROWS / 2));
  if (from === rowsFrom) return;
  rowsFrom = from;
  const shown = tickets.slice(from, from + MOST_ROWS).map((ticket, i) => statementRow(ticket, from + i));
  const more = (count, ticket) => (count > 0 ? `<tr data-ticket='${ticket}' class='more'><th></th><td colspan='${columns.length}'>${count} more</td></tr>` : '');
  at('rows').tBodies[0].innerHTML = more(from, from) + shown.join('') + more(tickets.length - from - MOST_ROWS, from + MOST_ROWS + 1);
}

// The statements that are in mid-statement stand below the last ticket.
function midway(all, row) {
  const old = at('midway');
  if (old) old.remove();
  const isMidway = (it) => it.open && !it.ticket;
  if (!hasEvents() || !all.some(isMidway)) return;
  const cells = columns.map((unit) => `<td>${isMidway(all[unit - 1]) ? escaped(trimmed(all[unit - 1].text)) : ''}</td>`);
  const made = `<tr id='midway'><th></th>${cells.join('')}</tr>`;
  if (row) row.insertAdjacentHTML('afterend', made);
  else at('rows').tBodies[0].insertAdjacentHTML('afterbegin', made);
}

function currentTable(number, { run, types, sets, areas, kept }) {
  const live = (key) => (key.includes(':') && !records.has(key) ? `${key} (deleted)` : key);
  const shown = (place) => place.split('/').map((key) => escaped(live(key))).join(' / ');
  const row = (head, values) => `<tr><th>${head}</th><td>${values.join('<br>')}</td></tr>`;
  const named = (list, keys) => keys.map((key, i) => `${list[i]}: ${shown(key)}`);
  const rows = [row('run-unit', [shown(run)]), row('record types', named(names.TYPES, types)), row('sets (owner / at)', named(names.SETS, sets)), row('areas', named(names.AREAS, areas))];
  if (kept.length > 0) rows.push(row('kept (record / version)', kept.map(escaped)));
  return `<h2>What is current for ${escaped(fileOf(number))}</h2><table>${rows.join('')}</table>`;
}

// ---- stepping

let now = 0, picked = 0, marked = null;

function showTime(step) {
  const all = placesOfUnits(hasEvents() ? now : 0);
  if (marked) marked.classList.remove('now');
  statementRows();
  marked = at('rows').tBodies[0].querySelector(`[data-ticket='${reached}']:not(.more)`);
  at('rows').classList.toggle('begun', reached > 0);
  if (marked) marked.classList.add('now');
  midway(all, marked);
  document.querySelectorAll('#rows [data-unit]').forEach((head) => {
    const unit = Number(head.dataset.unit);
    head.classList.toggle('chosen', unit === chosen(step));
    head.querySelector('.waits').textContent = hasEvents() ? waitOf(all, unit) : '';
    head.querySelector('small').textContent = hasEvents() ? holding(all[unit - 1]) : '';
  });
  if (marked) marked.scrollIntoView({ block: 'nearest' });
}

const chosen = (step) => picked || (step && step.unit <= scripts.length ? step.unit : columns[0] || 1);

// Brings the current record into sight.
function scrollToCurrent(currents) {
  const it = currents && records.has(currents.run) && places.get(currents.run);
  if (!it) return;
  const [view, top] = [at('right'), at('picture').offsetTop - at('right').offsetTop];
  const [low, high] = [top + it.y, top + it.y + it.height + 40];
  if (low < view.scrollTop || high > view.scrollTop + view.clientHeight) view.scrollTop = Math.max(0, (low + high - view.clientHeight) / 2);
  if (it.x < view.scrollLeft || it.x + it.width > view.scrollLeft + view.clientWidth) view.scrollLeft = Math.max(0, it.x - 20);
}

function printed() {
  if (at('details').open) at('printed').textContent = tickets.slice(0, reached).map((it) => it.line).join('') + '--\\n' + lines.join('\\n');
}

function show(n) {
  now = Math.max(0, Math.min(n, steps.length));
  const step = steps[now - 1];
  reach(step ? step.ticket : 0);
  choose();
  const currents = units.get(chosen(step));
  at('slider').value = now;
  at('place').textContent = `${hasEvents() ? 'event' : 'statement'} ${now} of ${steps.length}`;
  at('told').innerHTML = told(step);
  showTime(step);
  at('current').innerHTML = currents ? currentTable(chosen(step), currents) : '';
  at('areas').innerHTML = [...areas].map(([name, users]) => `Area <b>${name}</b> ${users.length > 0 ? `open by ${users.map((user) => user.replace(/^\\d+/, (unit) => fileOf(Number(unit)))).join(', ')}` : 'closed'}`).join(' &middot; ');
  at('sets').innerHTML = names.SETS.map((set) => `<button class='${hidden.has(set) ? 'hidden' : ''}' data-set='${set}' style='border-color:${colourOf(set)}'>${set}</button>`).join('');
  at('more').innerHTML = moreRecords();
  at('picture').innerHTML = picture(step && step.answer && tickets[step.ticket - 1], currents);
  printed();
  for (const [id, [, , next]] of Object.entries(STEPS)) at(id).disabled = next() === null;
  scrollToCurrent(currents);
}

// A unit that is picked stays chosen until it is picked again; otherwise it is the unit of the step.
function pick(unit) {
  if (!columns.includes(unit)) return;
  picked = picked === unit ? 0 : unit;
  show(now);
}

// The next step of this kind, on or back; null if there is none.
const nextOf = (test) => {
  const found = steps.findIndex((step, i) => i >= now && test(step));
  return found < 0 ? null : found + 1;
};
const on = () => (now < steps.length ? now + 1 : null);
const back = () => (now > 0 ? now - 1 : null);
const ticketOn = () => nextOf((step) => step.answer) || (now < steps.length ? steps.length : null);
const ticketBack = () => (now === 0 ? null : steps.slice(0, now - 1).findLastIndex((step) => step.answer) + 1);

// The button of each step: its keys, and where it goes.
const STEPS = {
  first: [['Home'], false, () => (now > 0 ? 0 : null)],
  'ticket-back': [['ArrowUp'], false, ticketBack],
  'event-back': [['ArrowLeft'], true, back],
  'event-on': [['ArrowRight'], true, on],
  'ticket-on': [['ArrowDown'], false, ticketOn],
  last: [['End'], false, () => (now < steps.length ? steps.length : null)],
  refusal: [['r'], false, () => nextOf((step) => step.answer && step.answer.refused)],
  wait: [['w'], true, () => nextOf((step) => step.letter === 'B')],
};

function go(id) {
  const next = STEPS[id][2]();
  if (next !== null) show(next);
}

function begin() {
  read();
  goThrough();
  reach(0);
  isShort = new Set(tickets.flatMap((ticket) => [...ticket.touched])).size <= MOST_DRAWN;
  document.title = fileOf(0);
  at('title').textContent = fileOf(0);
  columns = [...new Set(steps.map((step) => step.unit))].filter((unit) => unit <= scripts.length).sort((a, b) => a - b);
  statementsHead();
  for (const [id, [, ofEvents]] of Object.entries(STEPS)) {
    at(id).addEventListener('click', () => go(id));
    at(id).hidden = ofEvents && !hasEvents();
  }
  at('slider').max = steps.length;
  at('slider').addEventListener('input', () => show(Number(at('slider').value)));
  at('details').addEventListener('toggle', printed);
  document.addEventListener('click', ({ target }) => {
    const found = target.closest('[data-unit], [data-set], [data-type], [data-ticket]');
    if (!found) return;
    const { unit, set, type, ticket } = found.dataset;
    if (ticket) return void show(tickets[ticket - 1].step);
    if (unit) return void pick(Number(unit));
    if (type) asked.add(type);
    if (set && !hidden.delete(set)) hidden.add(set);
    show(now);
  });
  document.addEventListener('keydown', (pressed) => {
    const found = Object.keys(STEPS).find((id) => STEPS[id][0].includes(pressed.key));
    if (pressed.key >= '1' && pressed.key <= '8') pick(Number(pressed.key));
    if (!found) return;
    pressed.preventDefault();
    go(found);
  });
  addEventListener('resize', () => show(now));
  show(Number(location.hash.slice(1)) || 0);
}

begin();
</script>
</body>
</html>
";
